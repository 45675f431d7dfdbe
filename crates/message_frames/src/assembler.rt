//! The messages in progress: the control and the frames that it speaks of, in numbered lists.
ghost use Rattle.std.specs.Prelude.{◌≡◌, ℕ, ◌+◌, ◌-◌, ◌^◌, ◌<◌, ◌≤◌, [], ◌∷◌, ◌++◌, length, vec_len, vec_capacity, slice_index, slice_set, All, None, OnOk, OnErr, IfOk};
ghost use Rattle.message_frames.specs.Assembly.{assembled, nothing_yet};
ghost use Rattle.message_frames.specs.Assemblers.{state_of, IsSoundAssembler, IsRoomAfter, IsRoomFor, HoldsLists, HoldsAfter, HasFewLists, most_lists, IsRoomForTrack};
ghost use Rattle.message_frames.specs.Tracks.{held_in, way_to, without_frame, taken_back, frame_back, first_back, LeadsBelow, IsPayloadOf, IsTrackOf};
ghost use Rattle.message_frames.specs.Turns.{JoinsBelow, HasRoom, HaveRoom, after_all};
ghost use Rattle.message_frames.specs.Lists.{list_at, frames_in, rooms_in, GetRoom, LosesRoom, KeepsRoom, HasNumber, given, ended, assembly_of, AreSound, IsSound, renumbered, lists_of, IsBelow, spot_with, spot_lists};

use crate::control::{Begun, Control, Ending, MOST_CHAINS, OpenChain, Spot, Turn};
use crate::message::{Frames, Message};
use arrayvec::ArrayVec;
use frame_codec::flags::FINAL;
use frame_codec::{Frame, Malformed, PlacedFrame};
use grid_base::Memory;
use std::alloc::Global;
use std::mem;

/// How many lists may stay between pieces: one for each open chain at most, and one for a message in progress.
const MOST_LISTS: usize = MOST_CHAINS + 1;

/// The messages in progress on a connection.
#[derive(Debug, Drop)]
pub(crate) struct Assembler {
    /// How many bytes a first payload has at least.
    pub(crate) shortest: usize,
    pub(crate) control: Control,
    /// Where it looks ahead, to see what room frames need.
    pub(crate) ahead: Control,
    pub(crate) lists: Vec<Vec<Frame>>,
}

/// Room for the messages that frames give, for where each frame goes, and for the lists that they leave, if those have to
/// be numbered anew.
#[derive(Drop)]
pub(crate) struct Room {
    pub(crate) messages: Vec<Message>,
    pub(crate) track: Vec<Way>,
    pub(crate) kept: Option<Vec<Vec<Frame>>>,
}

/// Where a frame went.
#[derive(Debug, Drop)]
pub(crate) enum Way {
    /// To the end of a list.
    Listed(usize),
    /// To the end of a list, which was then given away as a message.
    Given(usize),
    /// To no list: it heads a fragment, or it fails.
    Apart(Frame),
}

/// What frames gave, where each of them went, and room for the lists that they leave, if those have to be numbered anew.
#[derive(Drop)]
pub(crate) struct Taken {
    pub(crate) messages: Vec<Message>,
    pub(crate) track: Vec<Way>,
    pub(crate) kept: Option<Vec<Vec<Frame>>>,
}

impl Taken {
    /// That of no frames. Takes no memory.
    pub(crate) fn nothing(alloc: Global) -> Self
        ensures messages { result.messages.items ≡ [] }
        ensures track { result.track.items ≡ [] }
        ensures kept { result.kept ≡ None }
    {
        Taken {
            messages: Vec::new(alloc),
            track: Vec::new(alloc),
            kept: None,
        }
    }
}

impl Assembler {
    /// No messages, of which each first payload is to have at least so many bytes. Takes no memory.
    pub(crate) fn new(alloc: Global, shortest: usize) -> Self
        ensures shortest { result.shortest ≡ shortest }
        ensures sound { IsSoundAssembler result }
        ensures few { HasFewLists result }
        ensures state { state_of result ≡ nothing_yet }
    {
        Assembler {
            shortest,
            control: Control::new(),
            ahead: Control::new(),
            lists: Vec::new(alloc),
        }
    }

    /// Makes room for what frames bring, at the cost of their number. Nothing else changes. Want of memory gives back what room was new.
    pub(crate) fn prepare(&mut self, alloc: Global, frames: &[PlacedFrame]) -> Result<Room, Memory>
        requires { IsSoundAssembler self.old }
        ensures shortest { self.new.shortest ≡ self.old.shortest }
        ensures control { self.new.control ≡ self.old.control }
        ensures state { state_of self.new ≡ state_of self.old }
        ensures sound { IsSoundAssembler self.new }
        ensures room { IfOk result (λ room. IsRoomFor self.new room frames.now) }
        ensures err { OnErr result (vec_len self.new.lists ≤ vec_len self.old.lists) }
    {
        match room_for(
            alloc,
            self.shortest,
            &self.control,
            &mut self.ahead,
            &mut self.lists,
            frames,
        ) {
            Ok(room) => Ok(room),
            Err(memory) => {
                self.lists.truncate(self.control.lists);
                Err(memory)
            }
        }
    }

    /// Takes frames for which there is room, up to the first fault, which it answers, and gives the messages that they complete.
    /// Takes no memory.
    pub(crate) fn take(
        &mut self,
        alloc: Global,
        frames: Vec<PlacedFrame>,
        room: Room,
    ) -> (Taken, Option<Malformed>)
        requires sound { IsSoundAssembler self.old }
        requires room { IsRoomFor self.old room frames.items }
        ensures shortest { self.new.shortest ≡ self.old.shortest }
        ensures messages { result.0.messages.items ≡ (assembled self.old.shortest frames.items (state_of self.old)).messages }
        ensures fault { result.1 ≡ (assembled self.old.shortest frames.items (state_of self.old)).fault }
        ensures state { state_of self.new ≡ (assembled self.old.shortest frames.items (state_of self.old)).after }
        ensures sound { IsSoundAssembler self.new }
        ensures kept { HoldsLists self.new result.0.kept }
        ensures back { taken_back result.0.track.items (held_in self.new.lists.items result.0.messages.items) ≡ held_in self.old.lists.items [] }
        ensures first { IsPayloadOf (first_back None result.0.track.items (held_in self.new.lists.items result.0.messages.items)) frames.items }
        ensures below { All (LeadsBelow (vec_len self.new.lists)) result.0.track.items }
        ensures count { vec_len self.new.lists ≡ vec_len self.old.lists }
    {
        let Room {
            mut messages,
            mut track,
            kept,
        } = room;
        let fault = assemble(
            alloc,
            self.shortest,
            &mut self.control,
            &mut self.lists,
            frames,
            &mut messages,
            &mut track,
        );
        let taken = Taken {
            messages,
            track,
            kept,
        };
        (taken, fault)
    }

    /// Numbers the lists of open messages anew, where there is room kept for them, and lets the others go. Takes no memory.
    pub(crate) fn keep(&mut self, alloc: Global, kept: Option<Vec<Vec<Frame>>>)
        requires sound { IsSoundAssembler self.old }
        requires kept { HoldsLists self.old kept }
        ensures shortest { self.new.shortest ≡ self.old.shortest }
        ensures state { state_of self.new ≡ state_of self.old }
        ensures sound { IsSoundAssembler self.new }
        ensures few { HasFewLists self.new }
    {
        if let Some(kept) = kept {
            settle(alloc, &mut self.control, &mut self.lists, kept);
        }
    }

    /// Takes frames back that went these ways and gave these messages, and has the control from before them again.
    /// Answers the frame that went first. Takes no memory.
    pub(crate) fn put_back(
        &mut self,
        before: &Control,
        mut messages: Vec<Message>,
        track: Vec<Way>,
    ) -> Option<Frame>
        requires sound { IsSound before.now (taken_back track.items (held_in self.old.lists.items messages.items)).lists }
        requires count { before.now.lists ≤ vec_len self.old.lists }
        requires below { All (LeadsBelow (vec_len self.old.lists)) track.items }
        ensures shortest { self.new.shortest ≡ self.old.shortest }
        ensures state { state_of self.new ≡ assembly_of before.now (taken_back track.items (held_in self.old.lists.items messages.items)).lists }
        ensures sound { IsSoundAssembler self.new }
        ensures first { result ≡ first_back None track.items (held_in self.old.lists.items messages.items) }
        ensures count { vec_len self.new.lists ≤ before.now.lists }
    {
        self.control.copy_from(before);
        let first = take_back(&mut self.lists, &mut messages, track);
        self.lists.truncate(self.control.lists);
        first
    }
}

/// Room in a list for so many frames.
fn widen(lists: &mut Vec<Vec<Frame>>, list: usize, count: usize) -> Result<(), Memory>
    requires { list < vec_len lists.old }
    ensures same { GetRoom lists.old.items lists.new.items }
    ensures count { vec_len lists.new ≡ vec_len lists.old }
    ensures room { OnOk result (count ≤ slice_index (rooms_in lists.new.items) list) }
{
    let room = &mut lists[list];
    room.reserve(count.saturating_sub(room.len()))
}

/// One empty list more, unless there are so many.
fn add_list(alloc: Global, lists: &mut Vec<Vec<Frame>>, wanted: usize) -> Result<(), Memory>
    requires { wanted ≤ vec_len lists.old + 1 }
    ensures same { GetRoom lists.old.items lists.new.items }
    ensures count { OnOk result (wanted ≤ vec_len lists.new) }
{
    if lists.len() < wanted {
        lists.push(Vec::new(alloc))?;
    }
    Ok(())
}

/// Room for a frame that is that to its connection, with which there are so many lists.
fn make_room(
    alloc: Global,
    lists: &mut Vec<Vec<Frame>>,
    wanted: usize,
    turn: &Turn,
) -> Result<(), Memory>
    requires one_more { wanted ≤ vec_len lists.old + 1 }
    requires below { JoinsBelow wanted turn.now }
    ensures same { GetRoom lists.old.items lists.new.items }
    ensures count { OnOk result (wanted ≤ vec_len lists.new) }
    ensures room { OnOk result (HasRoom (rooms_in lists.new.items) turn.now) }
{
    add_list(alloc, lists, wanted)?;
    match *turn {
        Turn::Joins { list, count, .. } => widen(lists, list, count),
        Turn::Heads | Turn::Fails(_) => Ok(()),
    }
}

/// Room for what frames bring, up to the first that fails. Looks ahead to the control after them.
fn plan(
    alloc: Global,
    shortest: usize,
    control: &Control,
    after: &mut Control,
    lists: &mut Vec<Vec<Frame>>,
    frames: &[PlacedFrame],
) -> Result<(), Memory>
    requires sound { IsSound control.now (frames_in lists.old.items) }
    requires count { control.now.lists ≤ vec_len lists.old }
    ensures same { GetRoom lists.old.items lists.new.items }
    ensures after { OnOk result (after.new ≡ after_all shortest frames.now control.now) }
    ensures room { OnOk result (HaveRoom shortest (rooms_in lists.new.items) frames.now control.now) }
{
    after.copy_from(control);
    for new in frames {
        let turn = after.next(shortest, new);
        if turn.is_failing() {
            return Ok(());
        }
        make_room(alloc, lists, after.lists, &turn)?;
    }
    Ok(())
}

/// Room for the lists of all messages that are open then, unless there are few lists, which can stay.
fn room_for_lists(
    alloc: Global,
    lists: usize,
    after: &Control,
) -> Result<Option<Vec<Vec<Frame>>>, Memory>
    ensures { IfOk result (HoldsAfter lists after.now) }
{
    if lists <= MOST_LISTS {
        return Ok(None);
    }
    let mut kept = Vec::new(alloc);
    kept.reserve(after.chains.len() + 1)?;
    Ok(Some(kept))
}

/// Room for what frames bring: in the lists, for the messages, and for the lists that they leave.
fn room_for(
    alloc: Global,
    shortest: usize,
    control: &Control,
    after: &mut Control,
    lists: &mut Vec<Vec<Frame>>,
    frames: &[PlacedFrame],
) -> Result<Room, Memory>
    requires sound { IsSound control.now (frames_in lists.old.items) }
    requires count { control.now.lists ≤ vec_len lists.old }
    ensures same { GetRoom lists.old.items lists.new.items }
    ensures room { OnOk result (HaveRoom shortest (rooms_in lists.new.items) frames.now control.now) }
    ensures rest { IfOk result (λ room. IsRoomAfter (vec_len lists.new) control.now (after_all shortest frames.now control.now) room) }
    ensures track { IfOk result (λ room. IsRoomForTrack room frames.now) }
{
    plan(alloc, shortest, control, after, lists, frames)?;
    let mut messages = Vec::new(alloc);
    messages.reserve(after.complete.saturating_sub(control.complete) as usize)?;
    let mut track = Vec::new(alloc);
    track.reserve(frames.len())?;
    let kept = room_for_lists(alloc, lists.len(), after)?;
    Ok(Room {
        messages,
        track,
        kept,
    })
}

/// Takes a frame to the end of a list, which has room for it.
fn append(lists: &mut Vec<Vec<Frame>>, list: usize, frame: Frame)
    requires list { list < vec_len lists.old }
    requires room { length (list_at (frames_in lists.old.items) list) < slice_index (rooms_in lists.old.items) list }
    ensures frames { frames_in lists.new.items ≡ slice_set (frames_in lists.old.items) list (list_at (frames_in lists.old.items) list ++ frame ∷ []) }
    ensures rooms { rooms_in lists.new.items ≡ rooms_in lists.old.items }
{
    lists[list].push_reserved(frame);
}

/// Gives a list away as a message.
fn give(alloc: Global, lists: &mut Vec<Vec<Frame>>, list: usize, messages: &mut Vec<Message>)
    requires list { list < vec_len lists.old }
    requires room { vec_len messages.old < vec_capacity messages.old }
    ensures frames { frames_in lists.new.items ≡ slice_set (frames_in lists.old.items) list [] }
    ensures rooms { LosesRoom (rooms_in lists.old.items) (rooms_in lists.new.items) list }
    ensures given { messages.new.items ≡ messages.old.items ++ record { frames = list_at (frames_in lists.old.items) list } ∷ [] }
    ensures count { vec_len messages.new ≡ vec_len messages.old + 1 }
    ensures capacity { vec_capacity messages.new ≡ vec_capacity messages.old }
{
    let frames = mem::replace(&mut lists[list], Vec::new(alloc));
    messages.push_reserved(Message {
        frames: Frames::from_vec(frames),
    });
}

/// Takes a frame to the end of its list, and gives the list away where the frame ends its message.
fn join(
    alloc: Global,
    lists: &mut Vec<Vec<Frame>>,
    list: usize,
    ending: Ending,
    mut frame: Frame,
    messages: &mut Vec<Message>,
)
    requires list { list < vec_len lists.old }
    requires room { length (list_at (frames_in lists.old.items) list) < slice_index (rooms_in lists.old.items) list }
    requires number { HasNumber ending messages.old }
    ensures lists { frames_in lists.new.items ≡ ended ending (frames_in lists.old.items) list frame }
    ensures rooms { KeepsRoom ending (rooms_in lists.old.items) (rooms_in lists.new.items) list }
    ensures given { messages.new.items ≡ messages.old.items ++ given ending (list_at (frames_in lists.old.items) list ++ frame ∷ []) }
    ensures count { vec_len messages.new ≡ vec_len messages.old + length (given ending (list_at (frames_in lists.old.items) list ++ frame ∷ [])) }
    ensures capacity { vec_capacity messages.new ≡ vec_capacity messages.old }
{
    match ending {
        Ending::GoesOn => append(lists, list, frame),
        Ending::EndsFragment => {
            frame.clear(FINAL);
            append(lists, list, frame);
        }
        Ending::EndsMessage => {
            append(lists, list, frame);
            give(alloc, lists, list, messages);
        }
    }
}

/// Where a frame went that joined a list.
fn way_to(list: usize, ending: Ending) -> Way
    ensures { result ≡ way_to list ending }
{
    match ending {
        Ending::GoesOn | Ending::EndsFragment => Way::Listed(list),
        Ending::EndsMessage => Way::Given(list),
    }
}

/// Takes frames to their lists, up to the first that fails, and adds each message that is whole and where each frame went.
/// Answers the fault.
fn assemble(
    alloc: Global,
    shortest: usize,
    control: &mut Control,
    lists: &mut Vec<Vec<Frame>>,
    frames: Vec<PlacedFrame>,
    messages: &mut Vec<Message>,
    track: &mut Vec<Way>,
) -> Option<Malformed>
    requires sound { IsSound control.old (frames_in lists.old.items) }
    requires room { HaveRoom shortest (rooms_in lists.old.items) frames.items control.old }
    requires numbers { vec_len messages.old + ((after_all shortest frames.items control.old).complete - control.old.complete) ≤ vec_capacity messages.old }
    requires none { track.old.items ≡ [] }
    requires ways { length frames.items ≤ vec_capacity track.old }
    ensures messages { messages.new.items ≡ messages.old.items ++ (assembled shortest frames.items (assembly_of control.old (frames_in lists.old.items))).messages }
    ensures fault { result ≡ (assembled shortest frames.items (assembly_of control.old (frames_in lists.old.items))).fault }
    ensures after { assembly_of control.new (frames_in lists.new.items) ≡ (assembled shortest frames.items (assembly_of control.old (frames_in lists.old.items))).after }
    ensures sound { IsSound control.new (frames_in lists.new.items) }
    ensures control { control.new ≡ after_all shortest frames.items control.old }
    ensures count { control.new.lists ≤ vec_len lists.new }
    ensures track { IsTrackOf frames.items lists.old.items messages.old.items lists.new.items messages.new.items track.new.items }
{
    let mut rest = frames.into_iter();
    while let Some(new) = rest.next() {
        match control.next(shortest, &new) {
            Turn::Fails(fault) => {
                track.push_reserved(Way::Apart(new.frame));
                return Some(fault);
            }
            Turn::Heads => track.push_reserved(Way::Apart(new.frame)),
            Turn::Joins { list, ending, .. } => {
                join(alloc, lists, list, ending, new.frame, messages);
                track.push_reserved(way_to(list, ending));
            }
        }
    }
    None
}

/// Takes one frame back from where it went, and answers it.
fn take_one_back(
    lists: &mut Vec<Vec<Frame>>,
    messages: &mut Vec<Message>,
    way: Way,
) -> Option<Frame>
    requires { LeadsBelow (vec_len lists.old) way }
    ensures held { held_in lists.new.items messages.new.items ≡ without_frame way (held_in lists.old.items messages.old.items) }
    ensures frame { result ≡ frame_back way (held_in lists.old.items messages.old.items) }
    ensures count { vec_len lists.new ≡ vec_len lists.old }
{
    match way {
        Way::Listed(list) => lists[list].pop(),
        Way::Given(list) => {
            let message = messages.pop()?;
            let mut frames = message.frames.into_vec();
            let last = frames.pop();
            lists[list] = frames;
            last
        }
        Way::Apart(frame) => Some(frame),
    }
}

/// Takes frames back from where they went, the last one first. Answers the one that went first.
fn take_back(
    lists: &mut Vec<Vec<Frame>>,
    messages: &mut Vec<Message>,
    mut track: Vec<Way>,
) -> Option<Frame>
    requires { All (LeadsBelow (vec_len lists.old)) track.items }
    ensures held { held_in lists.new.items messages.new.items ≡ taken_back track.items (held_in lists.old.items messages.old.items) }
    ensures first { result ≡ first_back None track.items (held_in lists.old.items messages.old.items) }
    ensures count { vec_len lists.new ≡ vec_len lists.old }
{
    let mut first = None;
    while let Some(way) = track.pop() {
        first = take_one_back(lists, messages, way);
    }
    first
}

/// Moves the lists of chains behind those that are kept, in their order. Answers the chains with their new lists.
fn move_chains(
    alloc: Global,
    chains: &[OpenChain],
    lists: &mut Vec<Vec<Frame>>,
    kept: &mut Vec<Vec<Frame>>,
) -> ArrayVec<OpenChain, MOST_CHAINS>
    requires sound { AreSound 0 chains.now (vec_len lists.old) (frames_in lists.old.items) }
    requires few { length chains.now ≤ MOST_CHAINS }
    requires none { kept.old.items ≡ [] }
    requires room { length chains.now ≤ vec_capacity kept.old }
    ensures chains { result.items ≡ renumbered 0 chains.now }
    ensures kept { frames_in kept.new.items ≡ lists_of (frames_in lists.old.items) chains.now }
    ensures others { (k : ℕ) → AreSound 0 chains.now k (frames_in lists.old.items) → list_at (frames_in lists.new.items) k ≡ list_at (frames_in lists.old.items) k }
    ensures count { vec_len lists.new ≡ vec_len lists.old }
    ensures kept_count { vec_len kept.new ≡ length chains.now }
    ensures capacity { vec_capacity kept.new ≡ vec_capacity kept.old }
{
    let mut moved = ArrayVec::new();
    for chain in chains {
        kept.push_reserved(mem::replace(&mut lists[chain.list], Vec::new(alloc)));
        moved.push(OpenChain {
            id: chain.id,
            list: moved.len(),
            tally: chain.tally,
        });
    }
    moved
}

/// Moves the list of a message in progress behind those that are kept. Answers the spot with its new list.
fn move_message(
    alloc: Global,
    spot: Spot,
    lists: &mut Vec<Vec<Frame>>,
    kept: &mut Vec<Vec<Frame>>,
) -> Spot
    requires list { IsBelow spot (vec_len lists.old) }
    requires room { vec_len kept.old < vec_capacity kept.old }
    ensures spot { result ≡ spot_with (vec_len kept.old) spot }
    ensures kept { frames_in kept.new.items ≡ frames_in kept.old.items ++ spot_lists (frames_in lists.old.items) spot }
    ensures count { vec_len kept.new ≡ vec_len kept.old + length (spot_lists (frames_in lists.old.items) spot) }
{
    match spot {
        Spot::OfMessage(Begun { at, list, tally }) => {
            let place = kept.len();
            kept.push_reserved(mem::replace(&mut lists[list], Vec::new(alloc)));
            Spot::OfMessage(Begun {
                at,
                list: place,
                tally,
            })
        }
        Spot::Free | Spot::OfFragment { .. } => spot,
    }
}

/// Numbers the lists of open messages anew, from 0 on, and lets the others go.
fn settle(
    alloc: Global,
    control: &mut Control,
    lists: &mut Vec<Vec<Frame>>,
    mut kept: Vec<Vec<Frame>>,
)
    requires sound { IsSound control.old (frames_in lists.old.items) }
    requires count { control.old.lists ≤ vec_len lists.old }
    requires none { kept.items ≡ [] }
    requires room { length control.old.chains.items < vec_capacity kept }
    ensures same { assembly_of control.new (frames_in lists.new.items) ≡ assembly_of control.old (frames_in lists.old.items) }
    ensures sound { IsSound control.new (frames_in lists.new.items) }
    ensures count { control.new.lists ≤ vec_len lists.new }
    ensures few { vec_len lists.new ≤ most_lists }
{
    control.chains = move_chains(alloc, control.chains.as_slice(), lists, &mut kept);
    control.spot = move_message(alloc, control.spot, lists, &mut kept);
    control.lists = kept.len();
    *lists = kept;
}
