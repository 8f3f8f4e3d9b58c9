//! Answers to several kept requests, one after the other.
ghost use Rattle.std.specs.Prelude.{◌≡◌, ◌+◌, ◌<◌, ◌≤◌, filter, length, IfOk, OnOk, IsTrue, false};
ghost use Rattle.dap_json.specs.Field.{max_seq};
ghost use Rattle.dap_outbox.specs.Draft.{explained, reply};
ghost use Rattle.dap_outbox.specs.Outbox.{AppendsDraft, answer_of, explanation_fits_as};
ghost use Rattle.dap_outbox.specs.Several.{is_chosen, answer_where, answer_by, WritesAll, WritesWithin, HasNumbersFor, AnswersChosen, explanations_fit, chosen_of, ExplainsChosen};
ghost use Rattle.dap_tables.specs.Outstanding.{entries};

use crate::answer::Answer;
use crate::outbox::Outbox;
use crate::waiting::is_starting_in;
use dap_body::Failure;
use dap_debuggee::Explanation;
use dap_tables::{Entry, InOrder, Outstanding};
use std::alloc::{AllocError, Global};

/// Which of the kept requests are answered.
#[derive(Clone, Copy)]
pub enum Chosen {
    /// All but the one with this number.
    AllBut(u64),
    /// Those that wait for the debuggee to start.
    Starting,
}

fn is_chosen(kept: &Outstanding, which: Chosen, request: &Entry) -> bool
    ensures { result ≡ is_chosen which kept.now.kept request.now }
{
    match which {
        Chosen::AllBut(one) => request.seq != one,
        Chosen::Starting => is_starting_in(kept, request),
    }
}

/// A success without a body, or a failure.
fn answer_by(failure: Option<Failure>) -> Answer
    ensures { answer_of result ≡ answer_by failure }
{
    match failure {
        None => Answer::Success(None),
        Some(failure) => Answer::Failure(failure),
    }
}

/// Answers each chosen request of those that are still to come.
fn answer_rest(
    alloc: Global,
    outbox: &mut Outbox,
    kept: &Outstanding,
    mut requests: InOrder<'_>,
    which: Chosen,
    failure: Option<Failure>,
) -> Result<(), AllocError>
    requires { outbox.old.numbers.used + length (filter (λ r. is_chosen which kept.now.kept r) requests) ≤ outbox.old.numbers.last }
    ensures writes { OnOk result (WritesAll outbox.old outbox.new (answer_where (λ r. is_chosen which kept.now.kept r) (answer_by failure) requests.entry)) }
    ensures before { outbox.new.before ≡ outbox.old.before }
{
    while let Some(request) = requests.next() {
        if is_chosen(kept, which, request) {
            outbox.reply(alloc, request, answer_by(failure))?;
        }
    }
    Ok(())
}

/// Answers each chosen request, by arrival.
pub fn answer_chosen(
    alloc: Global,
    outbox: &mut Outbox,
    kept: &Outstanding,
    which: Chosen,
    failure: Option<Failure>,
) -> Result<(), AllocError>
    requires { HasNumbersFor outbox.old which kept.now.kept }
    ensures writes { OnOk result (AnswersChosen outbox.old outbox.new which failure kept.now.kept) }
    ensures before { outbox.new.before ≡ outbox.old.before }
{
    answer_rest(alloc, outbox, kept, kept.in_order(), which, failure)
}

// ---- with why the debuggee refused

/// Whether why fits in the answer to each chosen request of those that are still to come, with the own number `last`.
fn can_explain_rest(
    alloc: Global,
    outbox: &mut Outbox,
    kept: &Outstanding,
    mut requests: InOrder<'_>,
    which: Chosen,
    told: &Explanation,
    last: u64,
    most: usize,
) -> Result<bool, AllocError>
    ensures fits { IfOk result (λ ok. ok ≡ explanations_fit last most told.now (chosen_of which kept.now.kept requests.entry)) }
    ensures same { outbox.new ≡ outbox.old }
{
    while let Some(request) = requests.next() {
        if is_chosen(kept, which, request) {
            if !outbox.can_explain(alloc, request, told, last, most)? {
                return Ok(false);
            }
        }
    }
    Ok(true)
}

/// Answers a request with why, which fits with any own number.
fn explain(
    alloc: Global,
    outbox: &mut Outbox,
    request: &Entry,
    told: &Explanation,
    last: u64,
    most: usize,
) -> Result<(), AllocError>
    requires left { outbox.old.numbers.used < outbox.old.numbers.last }
    requires last { outbox.old.numbers.last ≤ last }
    requires small { last ≤ max_seq }
    requires fits { IsTrue (explanation_fits_as last most request.now told.now) }
    ensures writes { OnOk result (AppendsDraft most outbox.old outbox.new (reply request.now (explained told.now))) }
    ensures before { outbox.new.before ≡ outbox.old.before }
{
    if outbox.explain_within(alloc, request, told, most)? {
        return Ok(());
    }
    unreachable!()
}

/// Answers each chosen request of those that are still to come with why, which fits in each.
fn explain_rest(
    alloc: Global,
    outbox: &mut Outbox,
    kept: &Outstanding,
    mut requests: InOrder<'_>,
    which: Chosen,
    told: &Explanation,
    last: u64,
    most: usize,
) -> Result<(), AllocError>
    requires room { outbox.old.numbers.used + length (chosen_of which kept.now.kept requests) ≤ outbox.old.numbers.last }
    requires last { outbox.old.numbers.last ≤ last }
    requires small { last ≤ max_seq }
    requires fits { IsTrue (explanations_fit last most told.now (chosen_of which kept.now.kept requests)) }
    ensures writes { OnOk result (WritesWithin most outbox.old outbox.new (answer_where (λ r. is_chosen which kept.now.kept r) (explained told.now) requests.entry)) }
    ensures before { outbox.new.before ≡ outbox.old.before }
{
    while let Some(request) = requests.next() {
        if is_chosen(kept, which, request) {
            explain(alloc, outbox, request, told, last, most)?;
        }
    }
    Ok(())
}

/// Answers each chosen request with why the debuggee refused, by arrival, if none of these answers would have more than so many
/// bytes with the greatest own number, which is `last`: whether they were. Else nothing is written.
pub fn explain_chosen(
    alloc: Global,
    outbox: &mut Outbox,
    kept: &Outstanding,
    which: Chosen,
    told: &Explanation,
    last: u64,
    most: usize,
) -> Result<bool, AllocError>
    requires room { HasNumbersFor outbox.old which kept.now.kept }
    requires last { outbox.old.numbers.last ≤ last }
    requires small { last ≤ max_seq }
    ensures fits { IfOk result (λ ok. ok ≡ explanations_fit last most told.now (chosen_of which kept.now.kept (entries kept.now.kept))) }
    ensures writes { IfOk result (λ ok. ExplainsChosen most outbox.old outbox.new which told.now kept.now.kept ok) }
    ensures too_long { IfOk result (λ ok. ok ≡ false → outbox.new ≡ outbox.old) }
    ensures before { outbox.new.before ≡ outbox.old.before }
{
    if !can_explain_rest(
        alloc,
        outbox,
        kept,
        kept.in_order(),
        which,
        told,
        last,
        most,
    )? {
        return Ok(false);
    }
    explain_rest(
        alloc,
        outbox,
        kept,
        kept.in_order(),
        which,
        told,
        last,
        most,
    )?;
    Ok(true)
}
