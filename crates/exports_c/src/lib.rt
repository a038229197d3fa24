//! The static library that C and Rust can link: each function is that of the same name in exports,
//! with its contract. A slice is handed in as a pointer and a length in elements.

#![tactic(auto)]

ghost use Rattle.std.specs.Prelude.{◌≡◌, length};
ghost use Rattle.keccak.specs.Sponge.{shake128};
ghost use Rattle.message.specs.Messages.{answer, confirmation, offer};
ghost use Rattle.exports.specs.Codes.{no_call};
ghost use Rattle.exports.specs.Elements.{Multiplied, derive_tape_code, derive_tape_output};
ghost use Rattle.exports.specs.Elements.{derive_seed_code, derive_seed_output};
ghost use Rattle.exports.specs.Seeds.{if_seed};
ghost use Rattle.exports.specs.Writing.{write_code, write_output};
ghost use Rattle.exports.specs.Packed.{pack_code, pack_output, unpack_code, unpack_numbers};
ghost use Rattle.exports.specs.Reading.{read_offer_code, read_offer_seed, read_offer_values};
ghost use Rattle.exports.specs.Reading.{read_answer_code, read_answer_values, read_answer_signals};
ghost use Rattle.exports.specs.Reading.{read_confirmation_code};
ghost use Rattle.exports.specs.Profiles.{round_code, recover_code, reconcile_code, read_code};

/// Multiplies in the ring of degree n and modulus q, if there is such a ring: by the schoolbook if
/// `row_sum` is 0, and else by the row sum. Without such a ring scratch stays as it was, too.
#[unsafe(no_mangle)]
pub extern "C" fn exported_multiply(
    row_sum: u8,
    n: usize,
    q: u32,
    left: &[u32],
    right: &[u32],
    scratch: &mut [u32],
    output: &mut [u32],
) -> u64
    ensures { Multiplied row_sum n q left.now right.now
        scratch.old scratch.new output.old output.new result }
{
    exports::exported_multiply(row_sum, n, q, left, right, scratch, output)
}

/// Derives an element of the house profile of an index, from 0 to 5, from a tape.
#[unsafe(no_mangle)]
pub extern "C" fn exported_derive_tape(profile: u8, tape: &[u8], output: &mut [u32]) -> u64
    ensures code { result ≡ derive_tape_code profile tape.now output.old }
    ensures writes { output.new ≡ derive_tape_output profile tape.now output.old }
{
    exports::exported_derive_tape(profile, tape, output)
}

/// Derives an element of the house profile of an index, from 0 to 5, from the SHAKE128 of a seed
/// of 16 bytes.
#[unsafe(no_mangle)]
pub extern "C" fn exported_derive_shake(profile: u8, seed: &[u8], output: &mut [u32]) -> u64
    ensures code { result ≡ derive_seed_code profile seed.now output.old }
    ensures writes { output.new ≡ derive_seed_output profile seed.now output.old }
{
    exports::exported_derive_shake(profile, seed, output)
}

/// Fills the output with the first bytes of SHAKE128 of the message.
#[unsafe(no_mangle)]
pub extern "C" fn exported_shake128(message: &[u8], output: &mut [u8])
    ensures { output.new ≡ shake128 message.now (length output.old) }
{
    exports::exported_shake128(message, output);
}

/// The rounded value of the residue x.
#[unsafe(no_mangle)]
pub extern "C" fn exported_round(profile: u8, x: u32) -> u64
    ensures { result ≡ round_code profile x }
{
    exports::exported_round(profile, x)
}

/// The integer that the rounded value y recovers to, before it is reduced modulo q: it may be q or
/// more.
#[unsafe(no_mangle)]
pub extern "C" fn exported_recover(profile: u8, y: u32) -> u64
    ensures { result ≡ recover_code profile y }
{
    exports::exported_recover(profile, y)
}

/// The signal and the key bit of the residue x and a coin, as 2 signal + key bit.
#[unsafe(no_mangle)]
pub extern "C" fn exported_reconcile(profile: u8, x: u32, coin: u8) -> u64
    ensures { result ≡ reconcile_code profile x coin }
{
    exports::exported_reconcile(profile, x, coin)
}

/// The key bit that is read of the residue y by a signal.
#[unsafe(no_mangle)]
pub extern "C" fn exported_read(profile: u8, y: u32, signal: u8) -> u64
    ensures { result ≡ read_code profile y signal }
{
    exports::exported_read(profile, y, signal)
}

/// Packs numbers of so many bits, if there is such a width: 1 to 16.
#[unsafe(no_mangle)]
pub extern "C" fn exported_pack(width: u32, numbers: &[u32], output: &mut [u8]) -> u64
    ensures code { result ≡ pack_code width numbers.now output.old }
    ensures writes { output.new ≡ pack_output width numbers.now output.old }
{
    exports::exported_pack(width, numbers, output)
}

/// Unpacks as many numbers of so many bits, 1 to 16, as there is room for.
#[unsafe(no_mangle)]
pub extern "C" fn exported_unpack(width: u32, bytes: &[u8], numbers: &mut [u32]) -> u64
    ensures code { result ≡ unpack_code width bytes.now numbers.old }
    ensures reads { numbers.new ≡ unpack_numbers width bytes.now numbers.old }
{
    exports::exported_unpack(width, bytes, numbers)
}

/// Writes an offer of the house profile of an index, with a seed of 16 bytes and n rounded values.
#[unsafe(no_mangle)]
pub extern "C" fn exported_write_offer(
    profile: u8,
    round: u32,
    seed: &[u8],
    values: &[u32],
    output: &mut [u8],
) -> u64
    ensures code { let message = offer round seed.now values.now in
        result ≡ if_seed seed.now (write_code profile message output.old) no_call }
    ensures writes { let message = offer round seed.now values.now in
        output.new ≡ if_seed seed.now (write_output profile message output.old) output.old }
{
    exports::exported_write_offer(profile, round, seed, values, output)
}

/// Writes an answer of the house profile of an index, with n rounded values and n signals.
#[unsafe(no_mangle)]
pub extern "C" fn exported_write_answer(
    profile: u8,
    round: u32,
    values: &[u32],
    signals: &[u32],
    output: &mut [u8],
) -> u64
    ensures code { result ≡ write_code profile (answer round values.now signals.now) output.old }
    ensures writes { let message = answer round values.now signals.now in
        output.new ≡ write_output profile message output.old }
{
    exports::exported_write_answer(profile, round, values, signals, output)
}

/// Writes a confirmation of the house profile of an index.
#[unsafe(no_mangle)]
pub extern "C" fn exported_write_confirmation(profile: u8, round: u32, output: &mut [u8]) -> u64
    ensures code { result ≡ write_code profile (confirmation round) output.old }
    ensures writes { output.new ≡ write_output profile (confirmation round) output.old }
{
    exports::exported_write_confirmation(profile, round, output)
}

/// The round of an offer of the house profile of an index; the buffers then hold its seed, of 16
/// bytes, and its n rounded values. A refusal leaves them as they were.
#[unsafe(no_mangle)]
pub extern "C" fn exported_read_offer(
    profile: u8,
    message: &[u8],
    seed: &mut [u8],
    values: &mut [u32],
) -> u64
    ensures code { let code = read_offer_code profile message.now values.old in
        result ≡ if_seed seed.old code no_call }
    ensures seed { let read = read_offer_seed profile message.now seed.old values.old in
        seed.new ≡ if_seed seed.old read seed.old }
    ensures values { let read = read_offer_values profile message.now values.old in
        values.new ≡ if_seed seed.old read values.old }
{
    exports::exported_read_offer(profile, message, seed, values)
}

/// The round of an answer of the house profile of an index; the buffers then hold its n rounded
/// values and its n signals. A refusal leaves them as they were.
#[unsafe(no_mangle)]
pub extern "C" fn exported_read_answer(
    profile: u8,
    message: &[u8],
    values: &mut [u32],
    signals: &mut [u32],
) -> u64
    ensures code { result ≡ read_answer_code profile message.now values.old signals.old }
    ensures values { values.new ≡ read_answer_values profile message.now values.old signals.old }
    ensures signals { let read = read_answer_signals profile message.now values.old signals.old in
        signals.new ≡ read }
{
    exports::exported_read_answer(profile, message, values, signals)
}

/// The round of a confirmation of the house profile of an index.
#[unsafe(no_mangle)]
pub extern "C" fn exported_read_confirmation(profile: u8, message: &[u8]) -> u64
    ensures { result ≡ read_confirmation_code profile message.now }
{
    exports::exported_read_confirmation(profile, message)
}
