//! Pseudo-random bytes that tests execute as code.
ghost use Rattle.std.specs.Prelude.{◌≡◌, ◌%◌, ◌*◌, ◌+◌};

/// Returns the pseudo-random number that follows `number`.
fn next(number: u16) -> u16
    ensures value { result ≡ (number * 25173 + 13849) % 65536 }
{
    number.wrapping_mul(25173).wrapping_add(13849)
}

/// Returns 64 pseudo-random bytes: the high bytes of the 64 pseudo-random numbers that follow `seed`.
pub fn generated(seed: u16) -> [u8; 64] {
    let mut number = seed;
    let mut bytes = [0; 64];
    for byte in bytes.iter_mut() {
        number = next(number);
        *byte = (number >> 8) as u8;
    }
    bytes
}
