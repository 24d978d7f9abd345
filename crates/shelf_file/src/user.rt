ghost use Rattle.std.specs.Prelude.{◌≡◌, ◌<◌, ◌≤◌, Some, None, option_map, length, nat_lt, if◌then◌else◌};
ghost use Rattle.std.specs.Result.{result_ok};
ghost use Rattle.hex.specs.Hex.{decode_of, decode_sized};
ghost use Rattle.toml.specs.View.{view};
ghost use Rattle.tl1_text.specs.Tags.{is_alphanumeric as reads_as_alphanumeric};
ghost use Rattle.shelf_file.specs.Keys.{is_uid as reads_as_uid, upper as in_upper_case, uid_of, class_of, salt_of, digest_of};

use arrayvec::ArrayVec;
use dxc_model::Class;
use toml::Value;

/// A user's name in upper case: 1 to 10 ASCII letters and digits, the first a letter.
pub type Uid = ArrayVec<u8, 10>;

/// What is kept of a user: the name, the class, and the secrets that know the PID. The PID itself is never kept.
#[derive(Drop)]
pub struct User {
    pub uid: Uid,
    pub class: Class,
    pub salt: ArrayVec<u8, 32>,
    pub digest: [u8; 32],
}

/// Whether a text is a user's name: 1 to 10 ASCII letters and digits, the first a letter.
pub fn is_uid(text: &[u8]) -> bool
    ensures { result ≡ reads_as_uid text.now }
{
    match text {
        [] => false,
        [first, ..] => text.len() <= 10 && first.is_ascii_alphabetic() && is_alphanumeric(text),
    }
}

fn is_alphanumeric(text: &[u8]) -> bool
    ensures { result ≡ reads_as_alphanumeric text.now }
{
    text.iter().all(|b| b.is_ascii_alphanumeric())
}

/// The name in upper case; None exactly where it is longer than a name can be.
pub fn upper(text: &[u8]) -> Option<Uid>
    ensures { option_map (λ k. k.items)
        result ≡ (if nat_lt 10 (length text.now) then None else Some (in_upper_case text.now)) }
{
    let mut name = ArrayVec::try_from(text).ok()?;
    name.as_mut_slice().make_ascii_uppercase();
    Some(name)
}

/// The value at `uid`.
pub fn uid_in(value: &Value) -> Option<Uid>
    ensures { option_map (λ k. k.items) result ≡ uid_of (view value.now) }
{
    match value.as_str() {
        Some(text) if is_uid(text.as_bytes()) => upper(text.as_bytes()),
        _ => None,
    }
}

/// The value at `class`.
pub fn class_in(value: &Value) -> Option<Class>
    ensures { result ≡ class_of (view value.now) }
{
    match value.as_str() {
        Some("R") => Some(Class::R),
        Some("P") => Some(Class::P),
        Some("S") => Some(Class::S),
        _ => None,
    }
}

/// The value at `salt`.
pub fn salt_in(value: &Value) -> Option<ArrayVec<u8, 32>>
    ensures { option_map (λ s. s.items) result ≡ salt_of (view value.now) }
{
    match value.as_str() {
        Some(text) => salt_from(text),
        None => None,
    }
}

/// A salt of at most 32 bytes, written in hexadecimal.
fn salt_from(text: &str) -> Option<ArrayVec<u8, 32>>
    ensures { option_map (λ s. s.items)
        result ≡ (if nat_lt 64 (length text.now) then None else result_ok (decode_of text.now)) }
{
    if text.len() > 64 {
        return None;
    }
    let mut room = [0u8; 32];
    let count = text.len() / 2;
    let bytes = &mut room[..count];
    match hex::decode_to_slice(text, bytes) {
        Ok(()) => ArrayVec::try_from(&room[..count]).ok(),
        Err(_) => None,
    }
}

/// The value at `digest`.
pub fn digest_in(value: &Value) -> Option<[u8; 32]>
    ensures { result ≡ digest_of (view value.now) }
{
    match value.as_str() {
        Some(text) => digest_from(text),
        None => None,
    }
}

/// A digest of 32 bytes, written in hexadecimal.
fn digest_from(text: &str) -> Option<[u8; 32]>
    ensures { result ≡ result_ok (decode_sized text.now 32) }
{
    let mut digest = [0u8; 32];
    match hex::decode_to_slice(text, &mut digest) {
        Ok(()) => Some(digest),
        Err(_) => None,
    }
}
