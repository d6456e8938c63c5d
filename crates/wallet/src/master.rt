//! The master secret, from which the key of each client is made.
ghost use Rattle.std.specs.Prelude.{◌≡◌, ◌↔◌, IfErr, IfOk, IsSome, length, ok_or, replicate, string_bytes};
ghost use Rattle.std.specs.List.{AllPass};
ghost use Rattle.std.specs.Result.{result_ok};
ghost use Rattle.hex.specs.Hex.{decode_sized, is_hex_digit};
ghost use Rattle.op_access.specs.Proof.{master_of};

use hex::FromHex;
use op_access::HmacVerifier;
use std::env;
use std::env::VarError;
use std::rt::Env;
use thiserror::Error;

/// The environment variable that holds the master secret.
const VARIABLE: &str = "OP_WALLET_MASTER";

/// Why there is no master secret.
#[derive(Clone, Copy, Debug, PartialEq, Eq, Error)]
pub enum MasterFault {
    /// The variable is set, and does not hold 64 hexadecimal digits.
    #[error("OP_WALLET_MASTER does not hold 64 hexadecimal digits")]
    Malformed,
    /// Memory was wanting.
    #[error("memory was wanting")]
    Memory,
}

/// The verifier of key proofs under the master secret: the 32 bytes whose hexadecimal digits, in either case, the
/// environment variable `OP_WALLET_MASTER` holds, or 32 zero bytes where it is not set. The secret itself is not handed on.
pub fn master_verifier<R: Env + AllocGlobal>(rt: &R) -> Result<HmacVerifier, MasterFault> {
    verifier_of(secret_of(env::var(rt, VARIABLE)))
}

/// The verifier of a master secret, if there is one.
fn verifier_of(secret: Result<[u8; 32], MasterFault>) -> Result<HmacVerifier, MasterFault>
    ensures ok { IfOk result (λ verifier. secret ≡ Ok (master_of verifier)) }
    ensures err { IfErr result (λ fault. secret ≡ Err fault) }
{
    Ok(HmacVerifier::new(secret?))
}

/// The master secret where the environment answers this for the variable.
fn secret_of(variable: Result<String, VarError>) -> Result<[u8; 32], MasterFault>
    ensures set { IfOk variable (λ text. result ≡ ok_or (result_ok (decode_sized (string_bytes text) 32)) MasterFault.Malformed) }
    ensures not_set { variable ≡ Err VarError.NotPresent → result ≡ Ok (replicate 32 0) }
    ensures no_text { variable ≡ Err VarError.NotUnicode → result ≡ Err MasterFault.Malformed }
    ensures memory { variable ≡ Err VarError.OutOfMemory → result ≡ Err MasterFault.Memory }
{
    match variable {
        Ok(text) => master_in(text.as_str()).ok_or(MasterFault::Malformed),
        Err(VarError::NotPresent) => Ok([0; 32]),
        Err(VarError::NotUnicode) => Err(MasterFault::Malformed),
        Err(VarError::OutOfMemory) => Err(MasterFault::Memory),
    }
}

/// The 32 bytes that a text spells in 64 hexadecimal digits, in either case.
fn master_in(text: &str) -> Option<[u8; 32]>
    ensures value { result ≡ result_ok (decode_sized text.now 32) }
    ensures found { IsSome result ↔ ((length text.now ≡ 64) × AllPass is_hex_digit text.now) }
{
    <[u8; 32] as FromHex>::from_hex(text).ok()
}
