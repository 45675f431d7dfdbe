ghost use Rattle.std.specs.Prelude.{◌≡◌, ◌↔◌, ◌≤◌, ◌<◌, length, IsTrue, IsOk, IfOk};
ghost use Rattle.link_frames.specs.Answers.{padded, masked, hmac, role_byte, question, answer_of};

use crate::hellos::write_hello;
use crate::parts::{ANSWER_LENGTH, Hello};
use grid_base::Memory;
use sha2::{Digest, Sha256};
use std::alloc::Global;
use std::marker::Model;
use thiserror::Error;

/// The most bytes that a secret has.
pub const MAX_SECRET: usize = 64;

/// Which end of a link it is.
#[derive(Clone, Copy, Debug, PartialEq, Eq)]
pub enum Role {
    Calls,
    IsCalled,
}

impl Role {
    fn byte(self) -> u8
        ensures { result ≡ role_byte self }
    {
        match self {
            Role::Calls => 1,
            Role::IsCalled => 0,
        }
    }
}

/// Why bytes are no secret.
#[derive(Clone, Copy, Debug, PartialEq, Eq, Error)]
pub enum SecretRefused {
    #[error("a secret has at least one byte")]
    Empty,
    #[error("a secret has at most 64 bytes")]
    TooLong,
}

/// What the members of a grid know and nobody else: what their answers are made with. Contracts see it filled up with
/// zeros.
#[derive(Drop)]
pub struct Secret {
    key: [u8; MAX_SECRET],
}

impl Model for Secret {
    ghost use Rattle.std.specs.Prelude.{ℕ, List};

    ghost Value = { List ℕ };

    ghost view = { λ secret. secret.key };
}

impl Secret {
    /// The secret of these bytes. Takes no memory.
    pub fn new(bytes: &[u8]) -> Result<Secret, SecretRefused>
        ensures key { IfOk result (λ secret. secret ≡ padded bytes.now) }
        ensures exact { IsOk result ↔ ((0 < length bytes.now) × (length bytes.now ≤ MAX_SECRET)) }
    {
        if bytes.is_empty() {
            return Err(SecretRefused::Empty);
        }
        if bytes.len() > MAX_SECRET {
            return Err(SecretRefused::TooLong);
        }
        let mut key = [0; MAX_SECRET];
        key[..bytes.len()].copy_from_slice(bytes);
        Ok(Secret { key })
    }

    /// What an end of a link answers to the challenge in the other's hello, once both hellos are known. Takes memory for
    /// both, and gives it back.
    pub fn answer(
        &self,
        alloc: Global,
        role: Role,
        own: &Hello,
        other: &Hello,
    ) -> Result<[u8; ANSWER_LENGTH], Memory>
        ensures { IfOk result (λ answer. answer ≡ answer_of self.now role own.now other.now) }
    {
        let mut asked = Vec::new(alloc);
        asked.push(role.byte())?;
        write_hello(own, &mut asked)?;
        write_hello(other, &mut asked)?;
        Ok(self.hmac(asked.as_slice()))
    }

    /// Whether an answer is that of the other end of a link, which has that role. Costs what an answer costs.
    pub fn is_answer(
        &self,
        alloc: Global,
        role: Role,
        other: &Hello,
        own: &Hello,
        given: &[u8; ANSWER_LENGTH],
    ) -> Result<bool, Memory>
        ensures { IfOk result (λ is. IsTrue is ↔ (given.now ≡ answer_of self.now role other.now own.now)) }
    {
        let answer = self.answer(alloc, role, other, own)?;
        Ok(given.as_slice() == answer.as_slice())
    }

    /// The code of a message under this secret.
    fn hmac(&self, message: &[u8]) -> [u8; ANSWER_LENGTH]
        ensures { result ≡ hmac self.now message.now }
    {
        let mut within = Sha256::new();
        within.update(masked(&self.key, 0x36));
        within.update(message);
        let mut around = Sha256::new();
        around.update(masked(&self.key, 0x5c));
        around.update(within.finalize());
        around.finalize()
    }
}

/// The key with a mask on each byte.
fn masked(key: &[u8; MAX_SECRET], mask: u8) -> [u8; MAX_SECRET]
    ensures { result ≡ masked mask key.now }
{
    let mut masked = [0; MAX_SECRET];
    for at in 0..MAX_SECRET {
        masked[at] = key[at] ^ mask;
    }
    masked
}
