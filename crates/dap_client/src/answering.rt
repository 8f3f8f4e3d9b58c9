//! What comes of the answer to a request of the adapter.
ghost use Rattle.std.specs.Prelude.{◌≡◌, ◌+◌, ◌<◌, ◌≤◌, ◌++◌, IfOk, IfErr, IfNone, OnOk, OnErr, IsTrue, length, None};
ghost use Rattle.dap_frame.specs.Written.{frame_of};
ghost use Rattle.dap_json.specs.Field.{max_seq};
ghost use Rattle.dap_envelope.specs.Canon.{canon};
ghost use Rattle.dap_envelope.specs.ReadBack.{ReadsBack};
ghost use Rattle.dap_tables.specs.Outstanding.{contains_seq};
ghost use Rattle.dap_client.specs.TerminalResponse.{is_plain_terminal, terminal_response, next_terminal_response, terminal_response_bytes, first_terminal_refusal, after_terminal_response};
ghost use Rattle.dap_client.specs.Keeping.{IsWhyNotAnswered};

use crate::fault::AnswerFault;
use crate::session::Session;
use crate::terminal::Terminal;
use dap_body::{Body, Failure};
use dap_call::RUN_IN_TERMINAL;
use dap_frame::frame_from;
use dap_message::laws::fixed_messages_are_short;
use dap_message::{append_answer, append_failure};
use std::alloc::{AllocError, Global};

/// Appends the text of the response, or changes nothing.
fn append_response(
    alloc: Global,
    out: &mut Vec<u8>,
    number: u64,
    request_seq: u64,
    terminal: Terminal,
) -> Result<(), AllocError>
    requires plain { IsTrue (is_plain_terminal terminal) }
    requires number { number ≤ max_seq }
    requires request { request_seq ≤ max_seq }
    ensures text { OnOk result (out.new.items ≡ out.old.items ++ canon (terminal_response number request_seq terminal)) }
    ensures reads_back { OnOk result (ReadsBack 1024 (terminal_response number request_seq terminal)) }
{
    // A law for the proof: a failure, and a success of a fixed shape, are short.
    fixed_messages_are_short();
    match terminal {
        Terminal::Started {
            process_id,
            shell_process_id,
        } => {
            let body = Some(Body::RunInTerminal {
                process_id,
                shell_process_id,
            });
            append_answer(alloc, out, number, request_seq, RUN_IN_TERMINAL, &body)
        }
        Terminal::Refused => append_failure(
            alloc,
            out,
            number,
            request_seq,
            RUN_IN_TERMINAL,
            Failure::TerminalRefused,
        ),
    }
}

impl Session {
    /// The first refusal of an answer.
    fn terminal_refusal(&self, closed: bool, request_seq: u64) -> Option<AnswerFault>
        ensures first { result ≡ first_terminal_refusal request_seq closed self.now }
        ensures kept { IfNone result (IsTrue (contains_seq request_seq self.now.incoming)) }
        ensures left { IfNone result (self.now.used < self.now.limits.seq) }
    {
        if closed {
            return Some(AnswerFault::Ended);
        }
        if !self.incoming.contains(request_seq) {
            return Some(AnswerFault::NotKept);
        }
        if self.numbers.left() == 0 {
            return Some(AnswerFault::SeqExhausted);
        }
        None
    }

    /// Ends the waiting of a request of the adapter, by a message that takes a number.
    fn settle_incoming(&mut self, request_seq: u64)
        requires { self.old.used < self.old.limits.seq }
        ensures { self.new ≡ after_terminal_response request_seq self.old }
    {
        let _ = self.incoming.take(request_seq);
        let _ = self.numbers.next();
    }

    /// Answers a request of the adapter, or refuses to.
    pub(crate) fn answer(
        &mut self,
        alloc: Global,
        closed: bool,
        request_seq: u64,
        terminal: Terminal,
    ) -> Result<Vec<u8>, AnswerFault>
        requires { IsTrue (is_plain_terminal terminal) }
        ensures limits { self.new.limits ≡ self.old.limits }
        ensures answered { OnOk result (first_terminal_refusal request_seq closed self.old ≡ None) }
        ensures bytes { IfOk result (λ bytes. bytes.items ≡ terminal_response_bytes self.old request_seq terminal) }
        ensures session { OnOk result (self.new ≡ after_terminal_response request_seq self.old) }
        ensures reads_back { OnOk result (ReadsBack self.old.limits.body (next_terminal_response self.old request_seq terminal)) }
        ensures refused { IfErr result (λ fault. IsWhyNotAnswered fault request_seq closed self.old) }
        ensures unchanged { OnErr result (self.new ≡ self.old) }
    {
        match self.terminal_refusal(closed, request_seq) {
            Some(fault) => return Err(fault),
            None => {}
        }
        let _most = self.limits.body();
        let mut bytes = Vec::new(alloc);
        append_response(alloc, &mut bytes, self.next_seq(), request_seq, terminal)?;
        frame_from(&mut bytes, 0)?;
        self.settle_incoming(request_seq);
        Ok(bytes)
    }
}
