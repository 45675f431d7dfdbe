//! What may be said: one table of all messages that have words.

/// A call on an entry alone.
#[derive(Clone, Copy, Debug, PartialEq, Eq)]
pub(crate) enum Bare {
    IsLocked,
    ForceUnlock,
}

/// A caller's call on an entry.
#[derive(Clone, Copy, Debug, PartialEq, Eq)]
pub(crate) enum Keyed {
    Get,
    ContainsKey,
    Remove,
    Delete,
    Unlock,
}

/// A caller's call with a value.
#[derive(Clone, Copy, Debug, PartialEq, Eq)]
pub(crate) enum Valued {
    Replace,
    RemoveIfSame,
}

/// A caller's call with a value and its time to live.
#[derive(Clone, Copy, Debug, PartialEq, Eq)]
pub(crate) enum Stored {
    Put,
    Set,
    PutIfAbsent,
}

/// A caller's call with a value, its time to live and its max idle time.
#[derive(Clone, Copy, Debug, PartialEq, Eq)]
pub(crate) enum Idle {
    PutMaxIdle,
    SetMaxIdle,
}

/// A call on a queue alone.
#[derive(Clone, Copy, Debug, PartialEq, Eq)]
pub(crate) enum Named {
    Poll,
    Peek,
    Size,
    RemainingCapacity,
    Clear,
}

/// What is listened to of a map.
#[derive(Clone, Copy, Debug, PartialEq, Eq)]
pub(crate) enum Heard {
    /// How the values of its entries change,
    Entries,
    /// and which values they are,
    Values,
    /// or which entries a near cache is to give up.
    Invalidations,
}

/// What is said.
#[derive(Clone, Copy, Debug, PartialEq, Eq)]
pub(crate) enum What {
    Hello,
    Ping,
    Bare(Bare),
    Keyed(Keyed),
    TryLock,
    Valued(Valued),
    ReplaceIfSame,
    Stored(Stored),
    Idle(Idle),
    ExecuteOnKey,
    Offer,
    Named(Named),
    LockWait,
    PutWait,
    OfferWait,
    PollWait,
    Listen(Heard),
    ListenRows,
}

/// The word of each. Those of calls are what a transcript calls them, and those of calls that may wait end with `Wait`.
const WHATS: [(&str, What); 33] = [
    ("hello", What::Hello),
    ("ping", What::Ping),
    ("put", What::Stored(Stored::Put)),
    ("set", What::Stored(Stored::Set)),
    ("putIfAbsent", What::Stored(Stored::PutIfAbsent)),
    ("putMaxIdle", What::Idle(Idle::PutMaxIdle)),
    ("setMaxIdle", What::Idle(Idle::SetMaxIdle)),
    ("get", What::Keyed(Keyed::Get)),
    ("containsKey", What::Keyed(Keyed::ContainsKey)),
    ("remove", What::Keyed(Keyed::Remove)),
    ("delete", What::Keyed(Keyed::Delete)),
    ("replace", What::Valued(Valued::Replace)),
    ("replaceIfSame", What::ReplaceIfSame),
    ("removeIfSame", What::Valued(Valued::RemoveIfSame)),
    ("tryLock", What::TryLock),
    ("unlock", What::Keyed(Keyed::Unlock)),
    ("isLocked", What::Bare(Bare::IsLocked)),
    ("forceUnlock", What::Bare(Bare::ForceUnlock)),
    ("executeOnKey", What::ExecuteOnKey),
    ("offer", What::Offer),
    ("poll", What::Named(Named::Poll)),
    ("peek", What::Named(Named::Peek)),
    ("size", What::Named(Named::Size)),
    ("remainingCapacity", What::Named(Named::RemainingCapacity)),
    ("clear", What::Named(Named::Clear)),
    ("lockWait", What::LockWait),
    ("putWait", What::PutWait),
    ("offerWait", What::OfferWait),
    ("pollWait", What::PollWait),
    ("listenEntries", What::Listen(Heard::Entries)),
    ("listenValues", What::Listen(Heard::Values)),
    ("listenInvalidations", What::Listen(Heard::Invalidations)),
    ("listenRows", What::ListenRows),
];

/// A word that stands before what it sets.
#[derive(Clone, Copy, Debug, PartialEq, Eq)]
pub(crate) enum Setting {
    /// The message's correlation.
    As,
    Client,
    Cluster,
    Ttl,
    Idle,
    Lease,
    Timeout,
    Thread,
    Partition,
}

const SETTINGS: [(&str, Setting); 9] = [
    ("as", Setting::As),
    ("client", Setting::Client),
    ("cluster", Setting::Cluster),
    ("ttl", Setting::Ttl),
    ("idle", Setting::Idle),
    ("lease", Setting::Lease),
    ("timeout", Setting::Timeout),
    ("thread", Setting::Thread),
    ("partition", Setting::Partition),
];

impl Setting {
    pub(crate) fn of_word(word: &[u8]) -> Option<Setting> {
        SETTINGS
            .iter()
            .find(|(name, _)| name.as_bytes() == word)
            .map(|(_, setting)| *setting)
    }
}

impl What {
    pub(crate) fn of_word(word: &[u8]) -> Option<What> {
        WHATS
            .iter()
            .find(|(name, _)| name.as_bytes() == word)
            .map(|(_, what)| *what)
    }

    /// How many words stand between it and its options.
    pub(crate) fn count(self) -> usize {
        match self {
            What::Hello | What::Ping | What::ListenRows => 0,
            What::Named(_) | What::PollWait | What::Listen(_) => 1,
            What::Bare(_)
            | What::Keyed(_)
            | What::TryLock
            | What::Offer
            | What::LockWait
            | What::OfferWait => 2,
            What::Valued(_) | What::Stored(_) | What::Idle(_) | What::PutWait => 3,
            What::ReplaceIfSame | What::ExecuteOnKey => 4,
        }
    }

    /// The options that it may have.
    pub(crate) fn settings(self) -> &'static [Setting] {
        match self {
            What::Hello => &[Setting::As, Setting::Client, Setting::Cluster],
            What::Ping | What::Bare(_) | What::Listen(_) | What::ListenRows => &[Setting::As],
            What::Keyed(_) | What::Valued(_) | What::ReplaceIfSame | What::ExecuteOnKey => {
                &[Setting::As, Setting::Thread]
            }
            What::TryLock => &[Setting::As, Setting::Thread, Setting::Lease],
            What::Stored(_) => &[Setting::As, Setting::Thread, Setting::Ttl],
            What::Idle(_) => { &[Setting::As, Setting::Thread, Setting::Ttl, Setting::Idle] }
            What::Offer | What::Named(_) => &[Setting::As, Setting::Partition],
            What::LockWait => {
                &[
                    Setting::As,
                    Setting::Thread,
                    Setting::Lease,
                    Setting::Timeout,
                ]
            }
            What::PutWait => &[Setting::As, Setting::Thread, Setting::Ttl, Setting::Timeout],
            What::OfferWait | What::PollWait => {
                &[Setting::As, Setting::Partition, Setting::Timeout]
            }
        }
    }
}

/// Whether it is the word of what names an object and, behind it, a key or a value.
pub fn has_data(word: &[u8]) -> bool {
    match What::of_word(word) {
        Some(what) => what.count() >= 2,
        None => false,
    }
}
