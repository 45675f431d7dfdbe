ghost use Rattle.std.specs.Prelude.{◌≡◌, ℕ, ◌+◌, ◌^◌, ◌<◌, length, None, Some, if◌then◌else◌, IfNone, position};
ghost use Rattle.message_frames.specs.Assembly.{is_header, chain_id};
ghost use Rattle.message_frames.specs.Turns.{at_first, is_named, chain_named, is_known, is_failing, IsAt, header_turn, message_turn, fragment_turn, completion_fault, turned};
ghost use Rattle.message_frames.specs.declared.control.OpenChain.{OpenChain as OpenChainOf};

use crate::tally::Tally;
use arrayvec::ArrayVec;
use frame_codec::flags::{BEGIN_FRAGMENT, END_FRAGMENT, FINAL};
use frame_codec::{Frame, Malformed, PlacedFrame, Why};

/// How many chains a connection may have open.
pub(crate) const MOST_CHAINS: usize = 16;

/// How many messages a connection can number.
pub(crate) const MOST_MESSAGES: u32 = u32::MAX;

/// A chain whose last fragment hasn't ended.
#[derive(Clone, Copy, Debug, Default)]
pub(crate) struct OpenChain {
    pub(crate) id: u64,
    /// The list that has its frames.
    pub(crate) list: usize,
    pub(crate) tally: Tally,
}

/// An unfragmented message that hasn't ended.
#[derive(Clone, Copy, Debug)]
pub(crate) struct Begun {
    /// The place of its first byte.
    pub(crate) at: u64,
    /// The list that has its frames.
    pub(crate) list: usize,
    pub(crate) tally: Tally,
}

/// What the next frame is a part of.
#[derive(Clone, Copy, Debug)]
pub(crate) enum Spot {
    /// It is the first of a message or the header of a fragment.
    Free,
    OfMessage(Begun),
    /// A fragment of a chain, its last one or not.
    OfFragment { id: u64, last: bool },
}

/// The state of a connection between two frames, apart from the frames, which are in lists.
#[derive(Debug, Drop)]
pub(crate) struct Control {
    pub(crate) spot: Spot,
    /// The open ones, in the order in which they were opened.
    pub(crate) chains: ArrayVec<OpenChain, MOST_CHAINS>,
    /// How many lists there are. The next message has the next one.
    pub(crate) lists: usize,
    /// How many messages were complete so far.
    pub(crate) complete: u32,
}

/// What a frame ends.
#[derive(Clone, Copy, Debug)]
pub(crate) enum Ending {
    GoesOn,
    /// A fragment that isn't its chain's last: the frame loses its final flag.
    EndsFragment,
    EndsMessage,
}

/// What a frame is to its connection.
#[derive(Clone, Copy, Debug)]
pub(crate) enum Turn {
    Fails(Malformed),
    /// The header of a fragment, which belongs to no message.
    Heads,
    /// The next frame of a list, which has so many with it.
    Joins {
        list: usize,
        count: usize,
        ending: Ending,
    },
}

impl Turn {
    pub(crate) fn is_failing(&self) -> bool
        ensures { result ≡ is_failing self.now }
    {
        matches!(self, Turn::Fails(_))
    }
}

impl Control {
    /// The state at first.
    pub(crate) fn new() -> Self
        ensures { result ≡ at_first }
    {
        Control {
            spot: Spot::Free,
            chains: ArrayVec::new(),
            lists: 0,
            complete: 0,
        }
    }

    /// Becomes as another is, at the cost of its open chains.
    pub(crate) fn copy_from(&mut self, other: &Control)
        ensures { self.new ≡ other.now }
    {
        self.spot = other.spot;
        self.chains.clear();
        self.chains
            .try_extend_from_slice(other.chains.as_slice())
            .unwrap();
        self.lists = other.lists;
        self.complete = other.complete;
    }

    /// Where the chain of that id is among the open ones. There are few of them.
    fn find(&self, id: u64) -> Option<usize>
        ensures { result ≡ position (is_named id) self.now.chains.items }
    {
        self.chains.iter().position(|chain| chain.id == id)
    }

    fn is_open(&self, id: u64) -> bool
        ensures { result ≡ is_known id self.now.chains.items }
    {
        self.chains.iter().any(|chain| chain.id == id)
    }

    /// Takes one frame more, where a first payload has at least so many bytes. A fault changes nothing.
    pub(crate) fn next(&mut self, shortest: usize, new: &PlacedFrame) -> Turn
        requires { self.old.lists + 1 < 2 ^ 64 }
        ensures turn { result ≡ (turned shortest new.now self.old).turn }
        ensures after { self.new ≡ (turned shortest new.now self.old).after }
    {
        match self.spot {
            Spot::Free => {
                if new.frame.has(BEGIN_FRAGMENT) && new.frame.has(END_FRAGMENT) {
                    let begun = Begun {
                        at: new.at,
                        list: self.lists,
                        tally: Tally::new(),
                    };
                    self.in_message(shortest, begun, self.lists + 1, new)
                } else {
                    self.at_header(new)
                }
            }
            Spot::OfMessage(begun) => self.in_message(shortest, begun, self.lists, new),
            Spot::OfFragment { id, last } => match self.find(id) {
                Some(place) => self.in_fragment(shortest, place, last, new),
                None => fails(new, Why::BadFragment),
            },
        }
    }

    /// Takes a frame of an unfragmented message, with which there are so many lists.
    fn in_message(&mut self, shortest: usize, begun: Begun, lists: usize, new: &PlacedFrame) -> Turn
        ensures turn { result ≡ (message_turn shortest begun lists new.now self.old).turn }
        ensures after { self.new ≡ (message_turn shortest begun lists new.now self.old).after }
    {
        let Begun { at, list, tally } = begun;
        let all = match tally.with(&new.frame) {
            Ok(all) => all,
            Err(why) => return fails(new, why),
        };
        if !new.frame.has(FINAL) {
            self.lists = lists;
            self.spot = Spot::OfMessage(Begun {
                at,
                list,
                tally: all,
            });
            return joins(list, &all, Ending::GoesOn);
        }
        if let Some(fault) = self.completion_fault(shortest, at, new.at, &all) {
            return Turn::Fails(fault);
        }
        self.lists = lists;
        self.spot = Spot::Free;
        self.complete += 1;
        joins(list, &all, Ending::EndsMessage)
    }

    /// Takes a fragment's header, which opens a chain or continues one.
    fn at_header(&mut self, new: &PlacedFrame) -> Turn
        requires { self.old.lists + 1 < 2 ^ 64 }
        ensures turn { result ≡ (header_turn new.now self.old).turn }
        ensures after { self.new ≡ (header_turn new.now self.old).after }
    {
        let id = match header_id(&new.frame) {
            Some(id) => id,
            None => return fails(new, Why::BadFragment),
        };
        let is_open = self.is_open(id);
        if !new.frame.has(BEGIN_FRAGMENT) {
            if !is_open {
                return fails(new, Why::BadFragment);
            }
            let last = new.frame.has(END_FRAGMENT);
            self.spot = Spot::OfFragment { id, last };
            return Turn::Heads;
        }
        if is_open {
            return fails(new, Why::BadFragment);
        }
        if self.chains.is_full() {
            return fails(new, Why::OpenFragments);
        }
        self.chains.push(OpenChain {
            id,
            list: self.lists,
            tally: Tally::new(),
        });
        self.lists += 1;
        self.spot = Spot::OfFragment { id, last: false };
        Turn::Heads
    }

    /// Takes a frame of a fragment of the chain at that place.
    fn in_fragment(&mut self, shortest: usize, place: usize, last: bool, new: &PlacedFrame) -> Turn
        requires { place < length self.old.chains.items }
        ensures turn { (id : ℕ) (chain : OpenChainOf) → IsAt id self.old.chains.items place → chain_named id self.old.chains.items ≡ Some chain →
            result ≡ (fragment_turn shortest id last new.now self.old chain).turn }
        ensures after { (id : ℕ) (chain : OpenChainOf) → IsAt id self.old.chains.items place → chain_named id self.old.chains.items ≡ Some chain →
            self.new ≡ (fragment_turn shortest id last new.now self.old chain).after }
    {
        let chain = self.chains[place];
        let all = match chain.tally.with(&new.frame) {
            Ok(all) => all,
            Err(why) => return fails(new, why),
        };
        let list = chain.list;
        if new.frame.has(FINAL) && last {
            if let Some(fault) = self.completion_fault(shortest, new.at, new.at, &all) {
                return Turn::Fails(fault);
            }
            self.chains.remove(place);
            self.spot = Spot::Free;
            self.complete += 1;
            return joins(list, &all, Ending::EndsMessage);
        }
        self.chains[place] = OpenChain {
            id: chain.id,
            list,
            tally: all,
        };
        if !new.frame.has(FINAL) {
            return joins(list, &all, Ending::GoesOn);
        }
        self.spot = Spot::Free;
        joins(list, &all, Ending::EndsFragment)
    }

    /// Why a message that has all its frames isn't given.
    fn completion_fault(
        &self,
        shortest: usize,
        began: u64,
        ended: u64,
        tally: &Tally,
    ) -> Option<Malformed>
        ensures fault { result ≡ completion_fault shortest began ended tally.now self.now }
        ensures numbered { IfNone result (self.now.complete + 1 < 2 ^ 32) }
    {
        if tally.first < shortest {
            return Some(Malformed {
                at: began,
                why: Why::ShortStart,
            });
        }
        if self.complete == MOST_MESSAGES {
            return Some(Malformed {
                at: ended,
                why: Why::Spent,
            });
        }
        None
    }
}

/// A fault that shows at the frame's first byte.
fn fails(new: &PlacedFrame, why: Why) -> Turn
    ensures { result ≡ Turn.Fails (record { at = new.now.at; why = why }) }
{
    Turn::Fails(Malformed { at: new.at, why })
}

/// A frame that goes to the end of a list, whose frames come to that with it.
fn joins(list: usize, all: &Tally, ending: Ending) -> Turn
    ensures { result ≡ Turn.Joins list all.now.count ending }
{
    Turn::Joins {
        list,
        count: all.count,
        ending,
    }
}

/// The id that a fragment's header carries, if the frame is one.
fn header_id(frame: &Frame) -> Option<u64>
    ensures { result ≡ (if is_header frame.now then Some (chain_id frame.now) else None) }
{
    if frame.has(FINAL) {
        return None;
    }
    match frame.payload.as_slice() {
        [a, b, c, d, e, f, g, h] => Some(u64::from_le_bytes([*a, *b, *c, *d, *e, *f, *g, *h])),
        _ => None,
    }
}
