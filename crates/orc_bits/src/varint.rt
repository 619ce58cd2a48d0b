//! Varints: numbers in groups of seven bits, the lowest group first, a byte each.
ghost use Rattle.std.specs.Prelude.{◌≡◌, ℕ, ◌+◌, ◌<◌, ◌≤◌, ◌^◌, ◌++◌, ◌⊎◌, List, length, take, IfOk, IfErr, OnOk, OnErr, vec_capacity, vec_len};
ghost use Rattle.orc_bits.specs.Varint.{IsVarint, IsShortest, AllBytes, HasVarint, NoVarint, varint_text};
ghost use Rattle.orc_bits.specs.declared.fault.BitFault.{BitFault};
ghost use Rattle.orc_bits.specs.declared.fault.BitFault.TheVariants.{OutOfMemory};

use crate::fault::BitFault;

/// A varint of 64 bits has at most this many bytes, of seven bits each.
const MOST_VARINT_BYTES: usize = 10;

/// The number of the varint at the front of `bytes`, and how many bytes it takes. Longer spellings
/// than the shortest are varints too.
///
/// Refusals: `Short` where `bytes` end within the varint, `TooLong` where its tenth byte is above
/// 1. It takes no memory.
pub fn read_varint(bytes: &[u8]) -> Result<(u64, usize), BitFault>
    // The returned pair is the number of a varint at the front of `bytes` and the varint's length, which is at most the
    // length of `bytes`.
    ensures found { IfOk result (λ found. IsVarint (take found.1 bytes.now) found.0) }
    ensures within { IfOk result (λ found. found.1 ≤ length bytes.now) }
    // If `bytes` begin with a varint, the shortest of its number or a longer one, then the call returns its number and
    // its length, whatever bytes follow.
    ensures only { (front rest : List ℕ) (n : ℕ)
        → IsVarint front n → bytes.now ≡ front ++ rest → result ≡ Ok (n, length front) }

    // An error is `Short` if `bytes` are empty, or fewer than ten and each at least 128; and `TooLong` if each of the
    // first nine is at least 128 and the tenth is above 1. There is no other error.
    ensures fault { IfErr result (NoVarint bytes.now) }
    // If `bytes` are empty, or fewer than ten and each at least 128, or the first nine are at least 128 and the tenth
    // is above 1, then the call fails, with `TooLong` in the last case and with `Short` in the others.
    ensures refused { (fault : BitFault) → NoVarint bytes.now fault → result ≡ Err fault }
{
    let mut value: u64 = 0;
    let mut scale: u64 = 1;
    for (i, byte) in bytes.iter().enumerate() {
        let byte = *byte;
        let used = i + 1;
        if i == MOST_VARINT_BYTES - 1 {
            if byte > 1 {
                return Err(BitFault::TooLong);
            }
            return Ok((value + u64::from(byte) * scale, used));
        }
        if byte < 128 {
            return Ok((value + u64::from(byte) * scale, used));
        }
        value += u64::from(byte % 128) * scale;
        scale *= 128;
    }
    Err(BitFault::Short)
}

/// Appends the shortest varint of `n`. A refusal, which is `OutOfMemory`, leaves `out` as it was,
/// and comes only where `out` had no room left for the varint.
pub fn put_varint(n: u64, out: &mut Vec<u8>) -> Result<(), BitFault>
    // If the call succeeds, then a varint of `n` is appended to `out`, and no varint of `n` is shorter.
    ensures text { OnOk result (out.new.items ≡ out.old.items ++ varint_text n) }
    ensures shortest { OnOk result (IsShortest (varint_text n) n) }

    // The only error is `OutOfMemory`. It leaves `out` as it was, and comes only if the shortest varint of `n` doesn't
    // fit the capacity that `out` has left.
    ensures refused { IfErr result (λ fault. fault ≡ OutOfMemory) }
    ensures unchanged { OnErr result (out.new.items ≡ out.old.items) }
    ensures full { OnErr result (vec_capacity out.old < vec_len out.old + length (varint_text n)) }
{
    let mut text = [0u8; MOST_VARINT_BYTES];
    let mut len = 0;
    let mut rest = n;
    while rest >= 128 {
        text[len] = (rest % 128) as u8 + 128;
        rest /= 128;
        len += 1;
    }
    text[len] = rest as u8;
    match out.extend_from_slice(&text[..len + 1]) {
        Ok(()) => Ok(()),
        Err(_) => Err(BitFault::OutOfMemory),
    }
}

/// Laws of varints: none is a proper prefix of another, so bytes have at most one varint in front;
/// every number below 2^64 has one shortest varint, the one that `put_varint` appends; where a fault
/// of `read_varint` applies no varint stands, nor another fault; and whatever bytes stand, a varint is
/// in front of them or a fault applies.
pub fn varint_laws()
    // No varint is a proper prefix of another, nor has two numbers.
    ensures prefix { (a b x y : List ℕ) (m n : ℕ) → IsVarint a m → IsVarint b n → a ++ x ≡ b ++ y → (a ≡ b) × (m ≡ n) }
    // Each number below 2^64 has a shortest varint, the one that is written of it.
    ensures written { (n : ℕ) → n < 2 ^ 64 → IsShortest (varint_text n) n }
    // If bytes are a shortest varint of a number, then they are the varint that `put_varint` appends for this number.
    ensures one_shortest { (a : List ℕ) (n : ℕ) → IsShortest a n → a ≡ varint_text n }
    // If `read_varint` has an error for bytes, then they don't begin with a varint.
    ensures none { (a x : List ℕ) (n : ℕ) (fault : BitFault) → NoVarint (a ++ x) fault → IsVarint a n → ⊥ }
    // If `read_varint` has an error for bytes, then it has no other error for them.
    ensures one_fault { (bytes : List ℕ) (e f : BitFault) → NoVarint bytes e → NoVarint bytes f → e ≡ f }
    // If each byte is below 256, then the bytes begin with a varint or `read_varint` has an error for them.
    ensures cover { (bytes : List ℕ) → AllBytes bytes → HasVarint bytes ⊎ ((fault : BitFault) × NoVarint bytes fault) }
{}
