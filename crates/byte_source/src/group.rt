//! The numbers that a source's bytes write.

ghost use Rattle.std.specs.Prelude.{◌≡◌, ◌≤◌};
ghost use Rattle.byte_source.specs.Derivation.{GivesGroup};
ghost use Rattle.byte_source.specs.Reading.{ahead, KeepsStream};

use crate::source::ByteSource;

/// The number that the next bytes write, the lowest first; nothing where there are not so many.
pub(crate) fn next_number<S: ByteSource>(source: &mut S, bytes: u32) -> Option<u32>
    requires { bytes ≤ 4 }
    ensures keeps { KeepsStream S.ByteSource source.old source.new }
    ensures gives { let old = ahead S.ByteSource source.old in
        GivesGroup bytes old result (ahead S.ByteSource source.new) }
{
    let mut number = 0;
    for i in 0..bytes {
        let byte = source.next()?;
        number |= u32::from(byte) << (8 * i);
    }
    Some(number)
}
