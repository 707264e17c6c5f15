//! What a name is.
ghost use Rattle.std.specs.Prelude.{◌↔◌, IsTrue};
ghost use Rattle.rg_text.specs.Byte.{IsName};

/// Returns whether the text is a name: 1 to 255 bytes, each an ASCII letter, a digit or `_`.
pub fn is_name(text: &str) -> bool
    ensures { IsTrue result ↔ IsName text.now }
{
    rg_text::is_name(text.as_bytes())
}
