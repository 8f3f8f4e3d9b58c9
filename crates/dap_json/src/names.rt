//! Names: texts that are short, and written in JSON as they are.
ghost use Rattle.std.specs.Prelude.{◌≡◌};
ghost use Rattle.std.specs.List.{list_all};
ghost use Rattle.dap_json.specs.Names.{is_unescaped, is_name as is_name_text};

/// The most bytes of a name.
pub const MAX_NAME: usize = 64;

fn are_unescaped(bytes: &[u8]) -> bool
    ensures { result ≡ list_all is_unescaped bytes.now }
{
    bytes.iter().all(|b| 32 <= *b && *b != b'"' && *b != b'\\')
}

/// Whether a text is a name: at most 64 bytes, and no control character, quotation mark nor backslash.
pub fn is_name(text: &str) -> bool
    ensures { result ≡ is_name_text text.now }
{
    text.len() <= MAX_NAME && are_unescaped(text.as_bytes())
}
