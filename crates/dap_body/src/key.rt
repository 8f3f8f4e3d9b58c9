//! The keys of bodies: Specification, the types whose names end in "Response", and "Types".
ghost use Rattle.std.specs.Prelude.{◌≡◌};
ghost use Rattle.dap_json.specs.Lent.{lent_data};
ghost use Rattle.serde_json.specs.View.{view};
ghost use Rattle.dap_body.specs.At.{value_at};

use dap_json::field;
use dap_json::property::Property;
use serde_json::Value;

/// A key of a body, or of an object in it.
#[derive(Clone, Copy, Debug, PartialEq, Eq)]
pub enum BodyKey {
    Threads,
    StackFrames,
    TotalFrames,
    Scopes,
    Variables,
    Breakpoints,
    Sources,
    Result,
    Content,
    Id,
    Name,
    Line,
    Column,
    Source,
    Path,
    SourceReference,
    VariablesReference,
    Expensive,
    Value,
    Verified,
    Message,
}

impl BodyKey {
    ghost use Rattle.dap_body.specs.Key.{text_of};

    /// Its name in the protocol.
    pub fn name(self) -> &'static str
        ensures { result.now ≡ text_of self }
    {
        match self {
            BodyKey::Threads => "threads",
            BodyKey::StackFrames => "stackFrames",
            BodyKey::TotalFrames => "totalFrames",
            BodyKey::Scopes => "scopes",
            BodyKey::Variables => "variables",
            BodyKey::Breakpoints => "breakpoints",
            BodyKey::Sources => "sources",
            BodyKey::Result => "result",
            BodyKey::Content => "content",
            BodyKey::Id => "id",
            BodyKey::Name => "name",
            BodyKey::Line => "line",
            BodyKey::Column => "column",
            BodyKey::Source => "source",
            BodyKey::Path => "path",
            BodyKey::SourceReference => "sourceReference",
            BodyKey::VariablesReference => "variablesReference",
            BodyKey::Expensive => "expensive",
            BodyKey::Value => "value",
            BodyKey::Verified => "verified",
            BodyKey::Message => "message",
        }
    }
}

/// What stands at a key of an object. `null` counts as absent.
pub(crate) fn at<'v>(object: &'v Value, key: BodyKey) -> Property<'v, BodyKey>
    ensures key { result.key ≡ key }
    ensures found { lent_data result.found ≡ value_at key (view object.now) }
{
    let found = field::present(object, key.name());
    Property { found, key }
}
