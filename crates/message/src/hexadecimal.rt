//! Lines that show bytes in hexadecimal.

ghost use Rattle.std.specs.Prelude.{◌≡◌, length};
ghost use Rattle.ring.specs.Faults.{after};
ghost use Rattle.message.specs.HexadecimalLines.{HexadecimalLineMeans, hexadecimal_line};
ghost use Rattle.message.specs.HexadecimalLines.{hexadecimal_line_outcome};

use ring::{Fault, place};

/// Writes the line that shows bytes under a word into `out`, which has to have its length.
pub fn hexadecimal_line(word: &str, bytes: &[u8], out: &mut [u8]) -> Result<(), Fault>
    ensures outcome { result ≡ hexadecimal_line_outcome word.now bytes.now (length out.old) }
    ensures means { HexadecimalLineMeans word.now bytes.now (length out.old) result }
    ensures writes { out.new ≡ after result (hexadecimal_line word.now bytes.now) out.old }
{
    let length = word.len() as u128 + 2 * bytes.len() as u128 + 2;
    if out.len() as u128 != length {
        return Err(Fault::WrongLength(place::OUTPUT));
    }
    let space = word.len();
    let newline = out.len() - 1;
    out[..space].copy_from_slice(word.as_bytes());
    out[space] = b' ';
    hex::encode_to_slice(bytes, &mut out[space + 1..newline]).unwrap();
    out[newline] = b'\n';
    Ok(())
}
