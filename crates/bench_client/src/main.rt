//! The program `bench_client`: a client that takes what an adapter wrote, from a file, and sends the requests that it answers,
//! from another one. It is there to show that recorded conversations pass, and to be measured beside other programs.
//!
//! A request is sent once fewer than two are outstanding and the client accepts it; what it writes goes nowhere.
#![tactic(auto)]

use dap_call::{Call, read_call};
use dap_client::{AnswerFault, Client, ClientFault, Phase, SendFault, Terminal};
use dap_command::Command;
use dap_envelope::{Kind, Message};
use dap_frame::Limits;
use dap_reader::{MessageReader, ReadFault};
use std::alloc::{AllocError, Global};
use std::fs::File;
use std::io;
use std::io::{Read, Write};
use std::process::ExitCode;

/// How many requests are outstanding at most.
const AT_ONCE: usize = 2;

/// Why nothing is told.
#[derive(Debug, Drop)]
enum Failure {
    Usage,
    Stream,
    Memory,
    /// The file of requests is no list of frames, or holds a request that a client cannot send.
    Requests,
    Client(ClientFault),
}

impl From<AllocError> for Failure {
    fn from(_refused: AllocError) -> Failure {
        Failure::Memory
    }
}

impl From<io::Error> for Failure {
    fn from(_failed: io::Error) -> Failure {
        Failure::Stream
    }
}

impl From<ReadFault> for Failure {
    fn from(fault: ReadFault) -> Failure {
        match fault {
            ReadFault::OutOfMemory => Failure::Memory,
            _ => Failure::Requests,
        }
    }
}

impl From<ClientFault> for Failure {
    fn from(fault: ClientFault) -> Failure {
        match fault {
            ClientFault::OutOfMemory => Failure::Memory,
            _ => Failure::Client(fault),
        }
    }
}

/// The requests of a file that were not read yet.
#[derive(Drop)]
struct Requests<'a> {
    rest: &'a [u8],
    reader: MessageReader,
    read: u64,
}

/// A client, and how far it came.
#[derive(Drop)]
struct Replay<'a> {
    client: Client,
    requests: Requests<'a>,
    /// The next one, unless none was read since the last one was sent.
    next: Option<Call>,
    sent: u64,
    delivered: u64,
}

/// The call that a message is, if it is a request.
fn call_of(alloc: Global, message: Message) -> Result<Option<Call>, Failure> {
    let Kind::Request { command, arguments } = message.kind else {
        return Ok(None);
    };
    let Some(command) = Command::of_name(command.as_str()) else {
        return Err(Failure::Requests);
    };
    let read = match &arguments {
        None => read_call(alloc, command, None),
        Some(tree) => read_call(alloc, command, Some(tree.value())),
    };
    match read {
        Ok(call) => Ok(Some(call)),
        Err(_) => Err(Failure::Requests),
    }
}

/// The next message of the file.
fn next_message(alloc: Global, requests: &mut Requests<'_>) -> Result<Message, Failure> {
    let message = requests.reader.next_in(alloc, &mut requests.rest)?;
    match message {
        Some(message) => Ok(message),
        None => Err(Failure::Requests),
    }
}

/// The next request of the file. What is none is passed over: what the adapter asks is answered by `answer`.
fn next_call(alloc: Global, requests: &mut Requests<'_>) -> Result<Option<Call>, Failure> {
    for _message in 0..requests.rest.len() {
        if requests.rest.is_empty() {
            return Ok(None);
        }
        let message = next_message(alloc, requests)?;
        if let Some(call) = call_of(alloc, message)? {
            requests.read = requests.read.saturating_add(1);
            return Ok(Some(call));
        }
    }
    Ok(None)
}

/// Sends what can be sent now.
fn send(alloc: Global, replay: &mut Replay<'_>) -> Result<(), Failure> {
    for _request in 0..AT_ONCE {
        if replay.client.outstanding() >= AT_ONCE {
            return Ok(());
        }
        if replay.next.is_none() {
            replay.next = next_call(alloc, &mut replay.requests)?;
        }
        let Some(call) = &replay.next else {
            return Ok(());
        };
        if !call.plain() {
            return Err(Failure::Requests);
        }
        match replay.client.send(alloc, call) {
            Ok(_) => {
                replay.sent = replay.sent.saturating_add(1);
                replay.next = None;
            }
            Err(SendFault::OutOfMemory) => return Err(Failure::Memory),
            Err(_) => return Ok(()),
        }
    }
    Ok(())
}

/// Answers the adapter where it asks for a terminal: it started.
fn answer(alloc: Global, replay: &mut Replay<'_>) -> Result<(), Failure> {
    let Some(seq) = replay.client.oldest_incoming() else {
        return Ok(());
    };
    let started = Terminal::Started {
        process_id: None,
        shell_process_id: None,
    };
    match replay.client.answer(alloc, seq, started) {
        Ok(_) => Ok(()),
        Err(AnswerFault::OutOfMemory) => Err(Failure::Memory),
        Err(_) => Ok(()),
    }
}

/// Takes a piece; after each message it answers what the adapter asks, and sends what can be sent then.
fn take(alloc: Global, replay: &mut Replay<'_>, piece: &[u8]) -> Result<(), Failure> {
    let mut rest = piece;
    // Each `take` uses a byte at least.
    for _take in 0..piece.len() {
        if rest.is_empty() {
            return Ok(());
        }
        let got = replay.client.take(alloc, rest)?;
        let (_, later) = rest.split_at(got.used);
        rest = later;
        if got.delivered.is_some() {
            replay.delivered = replay.delivered.saturating_add(1);
            answer(alloc, replay)?;
            send(alloc, replay)?;
        }
    }
    Ok(())
}

/// A client that took nothing, with the requests that it is to send.
fn opened<'a>(alloc: Global, requests: &'a [u8]) -> Result<Replay<'a>, Failure> {
    let client = Client::open(alloc, Limits::usual())?;
    let reader = MessageReader::open(alloc, &Limits::usual())?;
    Ok(Replay {
        client,
        requests: Requests {
            rest: requests,
            reader,
            read: 0,
        },
        next: None,
        sent: 0,
        delivered: 0,
    })
}

/// Takes all of a file.
fn take_all(alloc: Global, replay: &mut Replay<'_>, file: &mut File) -> Result<(), Failure> {
    let mut buffer = [0; 65536];
    for _read in 0..u64::MAX {
        let n = file.read(&mut buffer)?;
        if n == 0 {
            return Ok(());
        }
        let (piece, _) = buffer.split_at(n);
        take(alloc, replay, piece)?;
    }
    Ok(())
}

/// Reads the requests that are left, to count them.
fn count_rest(alloc: Global, requests: &mut Requests<'_>) -> Result<(), Failure> {
    for _request in 0..requests.rest.len() {
        if next_call(alloc, requests)?.is_none() {
            return Ok(());
        }
    }
    Ok(())
}

/// What is told of a phase.
fn name_of(phase: Phase) -> &'static str {
    match phase {
        Phase::Fresh => "Fresh",
        Phase::Initializing => "Initializing",
        Phase::Configuring => "Configuring",
        Phase::Running => "Running",
        Phase::Stopped => "Stopped",
        Phase::Resuming => "Resuming",
        Phase::Exited => "Exited",
        Phase::Ended => "Ended",
    }
}

/// What is told at the end.
fn told(alloc: Global, replay: &Replay<'_>) -> Result<String, Failure> {
    let sent = replay.sent;
    let all = replay.requests.read;
    let delivered = replay.delivered;
    let outstanding = replay.client.outstanding();
    let phase = name_of(replay.client.phase());
    Ok(format!(in alloc;
        "sent {sent} of {all}, delivered {delivered}, outstanding {outstanding}, {phase}\n"
    )?)
}

/// Sends and takes all.
fn play(alloc: Global, replay: &mut Replay<'_>, file: &mut File) -> Result<String, Failure> {
    send(alloc, replay)?;
    take_all(alloc, replay, file)?;
    count_rest(alloc, &mut replay.requests)?;
    told(alloc, replay)
}

/// The bytes of a file.
fn bytes_of(rt: &HostRuntime, name: &str) -> Result<Vec<u8>, Failure> {
    let mut bytes = Vec::new(rt.alloc());
    File::open(rt, name)?.read_to_end(&mut bytes)?;
    Ok(bytes)
}

/// Sends these requests, and takes what a file answers.
fn replayed(alloc: Global, requests: &[u8], file: &mut File) -> Result<String, Failure> {
    let mut replay = opened(alloc, requests)?;
    play(alloc, &mut replay, file)
}

/// The same with the requests of a file.
fn replayed_file(rt: &HostRuntime, requests: &str, answers: &str) -> Result<String, Failure> {
    let bytes = bytes_of(rt, requests)?;
    let mut file = File::open(rt, answers)?;
    replayed(rt.alloc(), &bytes, &mut file)
}

fn run(rt: &HostRuntime) -> Result<(), Failure> {
    let words: Vec<String> = std::env::args(rt)?.collect(rt.alloc())?;
    let [_, requests, answers] = words.as_slice() else {
        return Err(Failure::Usage);
    };
    let line = replayed_file(rt, requests.as_str(), answers.as_str())?;
    Ok(rt.stdout().write_all(line.as_bytes())?)
}

fn main(rt: HostRuntime) -> ExitCode {
    let (line, code) = match run(&rt) {
        Ok(()) => return ExitCode::SUCCESS,
        Err(Failure::Usage) => ("usage: bench_client REQUESTS ANSWERS\n", 2),
        Err(Failure::Requests) => ("bench_client: the requests are refused\n", 3),
        Err(Failure::Client(fault)) => {
            if let Ok(line) = format!(in rt.alloc(); "bench_client: {fault:?}\n") {
                let _ = rt.stderr().write_all(line.as_bytes());
            }
            return ExitCode::from(3);
        }
        Err(Failure::Stream) => ("bench_client: a read or a write failed\n", 5),
        Err(Failure::Memory) => ("bench_client: memory is exhausted\n", 6),
    };
    let _ = rt.stderr().write_all(line.as_bytes());
    ExitCode::from(code)
}
