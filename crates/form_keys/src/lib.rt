// FNV-1a with 64 bits: the key of some bytes.
#![tactic(auto)]

ghost use Rattle.std.specs.Prelude.{◌≡◌, ◌*◌, ◌%◌, ◌^◌};
ghost use Rattle.std.specs.Int.Bits.{bit_xor};
ghost use Rattle.form_keys.specs.Keys.{key_from, key_prime, key_start};

// The key with one byte more.
fn key_step(key: u64, byte: u8) -> u64
    ensures { result ≡ bit_xor byte key * key_prime % 2 ^ 64 }
{
    (u64::from(byte) ^ key).wrapping_mul(1099511628211)
}

// The key of some bytes.
pub fn key_of(bytes: &[u8]) -> u64
    ensures { result ≡ key_from key_start bytes.now }
{
    let mut key: u64 = 14695981039346656037;
    for &byte in bytes {
        key = key_step(key, byte);
    }
    key
}
