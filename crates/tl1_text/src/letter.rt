ghost use Rattle.std.specs.Prelude.{◌≡◌};
ghost use Rattle.std.specs.Char.{is_ascii_alphanumeric};
ghost use Rattle.tl1_text.specs.Grammar.{is_plain as plain, is_inner as inner};

// Each letter and digit at its own place, and a dash at every other place.
static WORD: [u8; 256] = *b"\
    --------------------------------\
    ----------------0123456789------\
    -ABCDEFGHIJKLMNOPQRSTUVWXYZ-----\
    -abcdefghijklmnopqrstuvwxyz-----\
    --------------------------------\
    --------------------------------\
    --------------------------------\
    --------------------------------";

/// Whether a byte is an ASCII letter or digit.
pub fn is_letter_or_digit(b: u8) -> bool
    ensures { result ≡ is_ascii_alphanumeric b }
{
    WORD[b as usize] != b'-'
}

// Each byte that may stand outside quotes at its own place, and a comma at every other place.
static PLAIN: [u8; 256] = *b"\
    ,,,,,,,,,,,,,,,,,,,,,,,,,,,,,,,,\
    ,!,#$%&'()*+,-./0123456789,,<=>?\
    @ABCDEFGHIJKLMNOPQRSTUVWXYZ[\\]^_\
    `abcdefghijklmnopqrstuvwxyz{|}~,\
    ,,,,,,,,,,,,,,,,,,,,,,,,,,,,,,,,\
    ,,,,,,,,,,,,,,,,,,,,,,,,,,,,,,,,\
    ,,,,,,,,,,,,,,,,,,,,,,,,,,,,,,,,\
    ,,,,,,,,,,,,,,,,,,,,,,,,,,,,,,,,";

/// Whether a byte may stand in a parameter outside quotes.
pub fn is_plain(b: u8) -> bool
    ensures { result ≡ plain b }
{
    PLAIN[b as usize] != b','
}

/// Whether a byte may stand inside quotes.
pub fn is_inner(b: u8) -> bool
    ensures { result ≡ inner b }
{
    matches!(b, 0x20..=0x7e) && b != b'"'
}
