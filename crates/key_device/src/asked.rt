// What a device in memory was asked.
ghost use Rattle.std.specs.Prelude.{◌≡◌, ◌∷◌, [], ◌++◌, IfOk, IfSome, map, option_map};
ghost use Rattle.claim_tree.specs.Credential.{named};
ghost use Rattle.key_device.specs.Calls.{Call, signs, judges};
ghost use Rattle.key_device.specs.code.MemoryDevice.{algorithm_of, meant};

use super::error::NoMemory;
use claim_tree::Alg;
use std::alloc::Global;

/// An algorithm as a message names it.
#[derive(Drop)]
pub enum NamedAlg {
    Jose(String),
    Cose(i128),
}

impl NamedAlg {
    pub fn new(alloc: Global, alg: Alg<'_>) -> Result<NamedAlg, NoMemory>
        ensures { IfOk result (λ named_alg. algorithm_of named_alg ≡ named alg.entry) }
    {
        match alg {
            Alg::Jose(text) => Ok(NamedAlg::Jose(String::from_str(alloc, text)?)),
            Alg::Cose(number) => Ok(NamedAlg::Cose(number)),
        }
    }
}

/// A call of a device.
#[derive(Drop)]
pub enum Asked {
    /// To sign a message, and the signature that was given, if one was.
    Sign {
        name: String,
        message: Vec<u8>,
        given: Option<Vec<u8>>,
    },
    /// To judge a signature.
    Judge {
        name: String,
        alg: NamedAlg,
        message: Vec<u8>,
        signature: Vec<u8>,
    },
}

impl Asked {
    pub fn signing(
        alloc: Global,
        name: &str,
        message: &[u8],
        given: Option<&[u8]>,
    ) -> Result<Asked, NoMemory>
        ensures { IfOk result (λ asked. meant asked
            ≡ signs name.now message.now (option_map (λ signature. signature.now) given.entry)) }
    {
        let given = match given {
            Some(signature) => Some(Vec::from_slice(alloc, signature)?),
            None => None,
        };
        Ok(Asked::Sign {
            name: String::from_str(alloc, name)?,
            message: Vec::from_slice(alloc, message)?,
            given,
        })
    }

    pub fn judging(
        alloc: Global,
        name: &str,
        alg: Alg<'_>,
        message: &[u8],
        signature: &[u8],
    ) -> Result<Asked, NoMemory>
        ensures { IfOk result (λ asked. meant asked
            ≡ judges name.now (named alg.entry) message.now signature.now) }
    {
        Ok(Asked::Judge {
            name: String::from_str(alloc, name)?,
            alg: NamedAlg::new(alloc, alg)?,
            message: Vec::from_slice(alloc, message)?,
            signature: Vec::from_slice(alloc, signature)?,
        })
    }
}

/// The calls with one more, or none where there is no memory for it.
pub fn with_call(mut calls: Vec<Asked>, asked: Result<Asked, NoMemory>) -> Option<Vec<Asked>>
    ensures { (call : Call) → IfOk asked (λ one. meant one ≡ call)
        → IfSome result (λ after. map meant after.items ≡ map meant calls.items ++ call ∷ []) }
{
    calls.push(asked.ok()?).ok()?;
    Some(calls)
}
