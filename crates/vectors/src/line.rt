//! A line of the input: a word for the group, then numbers.

ghost use Rattle.std.specs.Prelude.{◌≡◌, ◌≢◌, ◌↔◌, [], Ok, All, Contains, IfOk, IsTrue, codes};
ghost use Rattle.vectors.specs.Hexadecimal.{lower_hex_digits};
ghost use Rattle.hex.specs.Hex.{decode_of};

use anyhow::{Context, anyhow, bail};
use std::alloc::{AllocError, Global};
use std::fmt;
use std::num::{ParseIntError, TryFromIntError};
use std::str::FromStr;
use thiserror::Error;

/// What the vector of a line is about, and with that which numbers the line has.
#[derive(Clone, Copy, PartialEq, Eq, PartialOrd, Ord, Debug)]
pub enum Group {
    /// the lengths of a message and of its SHAKE128, and the bytes of both, as NIST published them
    Published,
    /// the same, of lengths at the edges of blocks
    Output,
    /// n, q, two elements and their product
    Product,
    /// a profile, n, a seed and its element
    Derived,
    /// a profile, a residue, its rounded value, and what that recovers to
    Rounded,
    /// a profile, a residue, a coin, and their signal and key bit
    Reconciled,
    /// a profile, a residue, a signal, and the key bit that is read
    Read,
}

impl Group {
    /// in the order in which they are printed
    pub const ALL: [Group; 7] = [
        Group::Published,
        Group::Output,
        Group::Product,
        Group::Derived,
        Group::Rounded,
        Group::Reconciled,
        Group::Read,
    ];
}

impl FromStr for Group {
    type Err = anyhow::Error;

    fn from_str(word: &str) -> anyhow::Result<Group> {
        match word {
            "published" => Ok(Group::Published),
            "shake" => Ok(Group::Output),
            "product" => Ok(Group::Product),
            "derived" => Ok(Group::Derived),
            "rounded" => Ok(Group::Rounded),
            "reconciled" => Ok(Group::Reconciled),
            "read" => Ok(Group::Read),
            _ => Err(anyhow!("a line of no known group")),
        }
    }
}

// What the vectors of a group are.
impl fmt::Display for Group {
    fn fmt<W: fmt::Write>(&self, f: &mut fmt::Formatter<W>) -> fmt::Result {
        f.write_str(match self {
            Group::Published => "SHAKE128, published vectors",
            Group::Output => "SHAKE128, at the edges of blocks",
            Group::Product => "products, by both multipliers",
            Group::Derived => "derived elements",
            Group::Rounded => "rounded and recovered values",
            Group::Reconciled => "signals and key bits",
            Group::Read => "key bits read",
        })
    }
}

/// Why the numbers of a line are not taken. It is small, since it is handed on with each number;
/// an `anyhow::Error` has room for its message in it.
#[derive(Debug, Drop, Error)]
pub enum NumbersError {
    /// a word that is no number
    #[error(transparent)]
    Word(#[from] ParseIntError),
    /// a number that is no byte
    #[error(transparent)]
    Byte(#[from] TryFromIntError),
    /// no memory for the numbers
    #[error(transparent)]
    Memory(#[from] AllocError),
}

/// The vector of a line.
#[derive(Drop)]
pub struct Vector {
    /// what it is about
    pub group: Group,
    /// the numbers of the line
    pub numbers: Vec<u32>,
}

/// Whether a character is a hexadecimal digit in lower case.
fn is_lower_hex_digit(text: &u8) -> bool
    ensures { IsTrue result ↔ Contains lower_hex_digits text.now }
{
    b"0123456789abcdef".contains(text)
}

/// Whether all characters are such digits.
fn are_lower_hex_digits(text: &[u8]) -> bool
    ensures { IsTrue result ↔ All (Contains lower_hex_digits) text.now }
{
    text.iter().all(is_lower_hex_digit)
}

/// The bytes of a text in lower-case hexadecimal, of which `-` has none.
fn hex_bytes(alloc: Global, text: &str) -> anyhow::Result<Vec<u8>>
    ensures none { IfOk result (λ bytes. text.now ≡ codes "-" → bytes.items ≡ []) }
    ensures decodes { IfOk result (λ bytes. text.now ≢ codes "-"
        → decode_of text.now ≡ Ok bytes.items) }
    ensures lower_case { IfOk result (λ _. text.now ≢ codes "-"
        → All (Contains lower_hex_digits) text.now) }
{
    if text == "-" {
        return Ok(Vec::new(alloc));
    }
    let (digits, half) = text.as_bytes().split_at(text.len() / 2 * 2);
    if !are_lower_hex_digits(digits) {
        bail!("no hexadecimal digit");
    }
    if !half.is_empty() {
        bail!("half a byte");
    }
    let mut bytes = vec![in alloc; 0u8; digits.len() / 2]?;
    hex::decode_to_slice(text, &mut bytes)?;
    Ok(bytes)
}

/// The counts and the bytes of a message and an output.
fn hash_numbers(alloc: Global, message: &[u8], output: &[u8]) -> anyhow::Result<Vec<u32>> {
    let mut numbers = Vec::new(alloc);
    numbers.push(u32::try_from(message.len())?)?;
    numbers.push(u32::try_from(output.len())?)?;
    numbers.extend(message.iter().chain(output).map(|byte| u32::from(*byte)))?;
    Ok(numbers)
}

/// The vector that a line states, if it is neither empty nor a comment.
pub fn read_line(alloc: Global, text: &str) -> anyhow::Result<Option<Vector>> {
    let mut words = text.split_whitespace();
    let Some(first) = words.next() else {
        return Ok(None);
    };
    if first.starts_with('#') {
        return Ok(None);
    }
    let group = first.parse::<Group>()?;
    let numbers = if group == Group::Published {
        let message = words.next().context("a message is missing")?;
        let output = words.next().context("an output is missing")?;
        hash_numbers(
            alloc,
            &hex_bytes(alloc, message)?,
            &hex_bytes(alloc, output)?,
        )?
    } else {
        words
            .map(|word| -> Result<u32, NumbersError> { Ok(word.parse()?) })
            .try_collect(alloc)?
    };
    Ok(Some(Vector { group, numbers }))
}
