//! The code that lets a phone in.

ghost use Rattle.std.specs.Prelude.{◌≡◌, ◌++◌, IfOk};
ghost use Rattle.jt_value.specs.Phone.{field_of};
ghost use Rattle.jt_platform.specs.Codes.{code_for};
ghost use Rattle.sha2.specs.Sha256.{sha256};

use hex::encode_to_slice;
use jt_value::{Memory, Octets, Phone, Seq};
use sha2::{Digest, Sha256};
use std::alloc::Global;

/// The code of a phone: the first sixteen lower-case hexadecimal digits of SHA-256 over the secret followed by the
/// octets of the phone in a header (this project's own). The editions of a phone have different codes.
#[tactic(auto, unfolding(crate::specs::Codes::code_for))]
pub fn code_of(secret: &[u8], phone: &Phone) -> [u8; 16]
    ensures { result ≡ code_for secret.now phone.now }
{
    let digest = digest_of(secret, phone.octets().as_slice());
    let mut digits = [0; 64];
    let Ok(()) = encode_to_slice(&digest, &mut digits) else {
        unreachable!();
    };
    let mut code = [0; 16];
    code.copy_from_slice(&digits[..16]);
    code
}

fn digest_of(secret: &[u8], field: &[u8]) -> [u8; 32]
    ensures { result ≡ sha256 (secret.now ++ field.now) }
{
    let mut hasher = Sha256::new();
    hasher.update(secret);
    hasher.update(field);
    hasher.finalize()
}

// The code as a list.
pub(crate) fn code_octets(alloc: Global, secret: &Octets, phone: &Phone) -> Result<Octets, Memory>
    ensures { IfOk result (λ code. code ≡ code_for secret.now phone.now) }
{
    let code = code_of(secret.as_slice(), phone);
    Ok(Seq::from_vec(Vec::from_clones(alloc, &code)?))
}
