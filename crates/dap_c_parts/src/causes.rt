//! Why a frame or a body is refused, as a number from 1: the place in the order in which the refusals are tested.
ghost use Rattle.std.specs.Prelude.{◌≡◌};
ghost use Rattle.dap_c_parts.specs.Causes.{refusal_number, body_number};

use dap_envelope::BodyRefusal;
use dap_frame::Refusal;

pub fn cause_of(refusal: Refusal) -> u32
    ensures { result ≡ refusal_number refusal }
{
    match refusal {
        Refusal::HeaderTooLong => 1,
        Refusal::BadHeader => 2,
        Refusal::NoLength => 3,
        Refusal::TwoLengths => 4,
        Refusal::BadLength => 5,
        Refusal::BodyTooLong => 6,
    }
}

pub fn body_cause(refusal: BodyRefusal) -> u32
    ensures { result ≡ body_number refusal }
{
    match refusal {
        BodyRefusal::NotJson => 1,
        BodyRefusal::NotObject => 2,
        BodyRefusal::BadSeq => 3,
        BodyRefusal::BadType => 4,
        BodyRefusal::BadCommand => 5,
        BodyRefusal::BadRequestSeq => 6,
        BodyRefusal::BadSuccess => 7,
        BodyRefusal::BadEvent => 8,
        BodyRefusal::BadMessage => 9,
    }
}
