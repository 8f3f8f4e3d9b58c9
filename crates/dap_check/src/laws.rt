//! Laws of the definitions, each on a function with nothing to run.
ghost use Rattle.dap_check.specs.Laws.{EachTranscriptHasOneVerdict, SomeIsAPlace, OpenIsAPlace, FirstIsAPlace, LastIsAPlace};
ghost use Rattle.dap_check.specs.FindingLaws.{FindingsAreBrokenRules, FirstFindingIsTheVerdict, FindingsAreInOrder, OpenRequestsAreUnanswered, OpenRequestsWait};
ghost use Rattle.dap_check.specs.ReadingLaws.{TextsHaveOneLine, TextsHaveOneTranscript, TextsHaveOneFault, TranscriptsGrow};
ghost use Rattle.dap_check.specs.Places.{AnswerIsByPlaces, FirstRequestIsByPlaces, OfferIsByPlaces, ReferencesAreByPlaces};

use dap_envelope::laws::each_body_is_one;

/// Each transcript is legal, or has one finding: never both, never two.
pub fn each_transcript_has_one_verdict()
    ensures { EachTranscriptHasOneVerdict }
{}

/// The words by which the rules speak of earlier lines, told by places: something is open where a line that opens it
/// stands, and no line after it closes it; the first that passes has none before it that does, and the last none after.
pub fn earlier_lines_are_places()
    ensures some { SomeIsAPlace }
    ensures open { OpenIsAPlace }
    ensures first { FirstIsAPlace }
    ensures last { LastIsAPlace }
{}

/// The rules told by places: of answers, of the client's first request, of what is offered, and of references. Those of
/// numbers, of the event `initialized` and of the end are plain at sight.
pub fn rules_are_told_by_places()
    ensures answer { AnswerIsByPlaces }
    ensures first_request { FirstRequestIsByPlaces }
    ensures offer { OfferIsByPlaces }
    ensures references { ReferencesAreByPlaces }
{}

/// A text is read in one way: it has one line at most, and none where it is refused. Texts have one transcript at most, and
/// one text more makes it one line longer, if that has bytes; where they have none, they are refused at one place for one cause.
pub fn texts_are_read_in_one_way()
    ensures line { TextsHaveOneLine }
    ensures transcript { TextsHaveOneTranscript }
    ensures fault { TextsHaveOneFault }
    ensures grows { TranscriptsGrow }
{
    // A law for the proof: no text is two messages.
    each_body_is_one();
}

/// Which lines are listed as findings: those that break a rule, each with the least that it breaks; and the first of them is
/// what `check` answers.
pub fn findings_are_broken_rules()
    ensures listed { FindingsAreBrokenRules }
    ensures first { FirstFindingIsTheVerdict }
{}

/// Findings are listed in the order of their lines, and no line is listed twice.
pub fn findings_are_in_order()
    ensures { FindingsAreInOrder }
{}

/// Which requests are listed as unanswered: those that no later line answers, which are those that wait for a response by the
/// words of the second rule.
pub fn open_requests_are_unanswered()
    ensures listed { OpenRequestsAreUnanswered }
    ensures wait { OpenRequestsWait }
{}
