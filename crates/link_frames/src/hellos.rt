ghost use Rattle.std.specs.Prelude.{◌≡◌, ◌≢◌, ◌++◌, Ok, OnOk, OnErr, IfErr, IsTrue};
ghost use Rattle.link_frames.specs.Spelling.{hello_bytes};
ghost use Rattle.link_frames.specs.Hellos.{checked};

use crate::parts::{ANSWER_LENGTH, HELLO_LENGTH, Hello, MAGIC};
use grid_base::Memory;
use thiserror::Error;

/// Why another end's hello is not taken.
#[derive(Clone, Copy, Debug, PartialEq, Eq, Error)]
pub enum HelloRefused {
    #[error("the other end is of another grid, or was started from another file")]
    OtherGrid,
    #[error("the other end wants another member")]
    OtherPeer,
    #[error("the other end is another member than the one that was called")]
    OtherMember,
    #[error("the other end says that it is this member")]
    SameMember,
}

/// Whether an end that has said its own hello may go on with the other's. An end that was called says its own once the
/// other's is there, to the member that the other says it is.
pub fn check_hello(own: &Hello, other: &Hello) -> Result<(), HelloRefused>
    ensures { result ≡ checked own.now other.now }
{
    if other.grid.as_slice() != own.grid.as_slice() {
        Err(HelloRefused::OtherGrid)
    } else if other.peer != own.member {
        Err(HelloRefused::OtherPeer)
    } else if other.member != own.peer {
        Err(HelloRefused::OtherMember)
    } else if other.member == own.member {
        Err(HelloRefused::SameMember)
    } else {
        Ok(())
    }
}

/// Appends the bytes of a hello. Want of memory appends nothing.
pub fn write_hello(hello: &Hello, out: &mut Vec<u8>) -> Result<(), Memory>
    ensures ok { OnOk result (out.new.items ≡ out.old.items ++ hello_bytes hello.now) }
    ensures err { OnErr result (out.new.items ≡ out.old.items) }
{
    out.reserve(HELLO_LENGTH)?;
    out.extend_from_slice(&MAGIC.to_le_bytes()).unwrap();
    out.extend_from_slice(&hello.grid).unwrap();
    out.extend_from_slice(&[hello.member, hello.peer]).unwrap();
    out.extend_from_slice(&hello.process.to_le_bytes()).unwrap();
    out.extend_from_slice(&hello.challenge).unwrap();
    Ok(())
}

/// Appends the bytes of an answer. Want of memory appends nothing.
pub fn write_answer(answer: &[u8; ANSWER_LENGTH], out: &mut Vec<u8>) -> Result<(), Memory>
    ensures ok { OnOk result (out.new.items ≡ out.old.items ++ answer.now) }
    ensures err { OnErr result (out.new.items ≡ out.old.items) }
{
    Ok(out.extend_from_slice(answer)?)
}
