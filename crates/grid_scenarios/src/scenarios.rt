//! The scenarios of `data/`: a folder for each subject, and the name and the exit status of each script in it.
//!
//! What a script shows is said by its first comment. The three that can't have one are told at their names.

mod clients;
mod connections;
mod crashes;
mod members;
mod objects;
mod random;

use clients::{LISTENERS, NEAR, WAITING};
use connections::{BAD_BYTES, SCRIPTS, SESSIONS, STREAMS};
use crashes::{
    CRASHES_IN_A_HELD_PUT, CRASHES_IN_A_LOST_ACKNOWLEDGEMENT, CRASHES_IN_A_MOVE, CRASHES_IN_A_SHOP,
};
use members::{BACKUPS, MASTERS, MOVES, PROMOTIONS, REBALANCING, REOPENINGS};
use objects::{DUMPS, EXPIRY, LOCKS, MAX_IDLE, OBJECT_CALLS, PROCESSORS, QUEUES};
use random::{
    OUTSIDE_BYTES, OUTSIDE_MASTERS, OUTSIDE_OBJECTS, OUTSIDE_REPLICATION, OUTSIDE_SESSIONS,
    OUTSIDE_UNKNOWN_CLIENTS, RANDOM,
};

/// The scenarios of a folder.
#[derive(Clone, Copy, Debug)]
pub(crate) struct Subject {
    pub(crate) folder: &'static str,
    pub(crate) scenarios: &'static [(&'static str, u8)],
}

/// All of them, in the order in which they run.
pub(crate) const SUBJECTS: [Subject; 31] = [
    Subject {
        folder: "sessions",
        scenarios: SESSIONS,
    },
    Subject {
        folder: "streams",
        scenarios: STREAMS,
    },
    Subject {
        folder: "scripts",
        scenarios: SCRIPTS,
    },
    Subject {
        folder: "expiry",
        scenarios: EXPIRY,
    },
    Subject {
        folder: "locks",
        scenarios: LOCKS,
    },
    Subject {
        folder: "max_idle",
        scenarios: MAX_IDLE,
    },
    Subject {
        folder: "queues",
        scenarios: QUEUES,
    },
    Subject {
        folder: "processors",
        scenarios: PROCESSORS,
    },
    Subject {
        folder: "dumps",
        scenarios: DUMPS,
    },
    Subject {
        folder: "object_calls",
        scenarios: OBJECT_CALLS,
    },
    Subject {
        folder: "backups",
        scenarios: BACKUPS,
    },
    Subject {
        folder: "promotions",
        scenarios: PROMOTIONS,
    },
    Subject {
        folder: "moves",
        scenarios: MOVES,
    },
    Subject {
        folder: "reopenings",
        scenarios: REOPENINGS,
    },
    Subject {
        folder: "rebalancing",
        scenarios: REBALANCING,
    },
    Subject {
        folder: "masters",
        scenarios: MASTERS,
    },
    Subject {
        folder: "listeners",
        scenarios: LISTENERS,
    },
    Subject {
        folder: "near",
        scenarios: NEAR,
    },
    Subject {
        folder: "waiting",
        scenarios: WAITING,
    },
    Subject {
        folder: "bad_bytes",
        scenarios: BAD_BYTES,
    },
    Subject {
        folder: "crashes_in_a_held_put",
        scenarios: CRASHES_IN_A_HELD_PUT,
    },
    Subject {
        folder: "crashes_in_a_lost_acknowledgement",
        scenarios: CRASHES_IN_A_LOST_ACKNOWLEDGEMENT,
    },
    Subject {
        folder: "crashes_in_a_move",
        scenarios: CRASHES_IN_A_MOVE,
    },
    Subject {
        folder: "crashes_in_a_shop",
        scenarios: CRASHES_IN_A_SHOP,
    },
    Subject {
        folder: "outside_bytes",
        scenarios: OUTSIDE_BYTES,
    },
    Subject {
        folder: "outside_unknown_clients",
        scenarios: OUTSIDE_UNKNOWN_CLIENTS,
    },
    Subject {
        folder: "outside_sessions",
        scenarios: OUTSIDE_SESSIONS,
    },
    Subject {
        folder: "outside_objects",
        scenarios: OUTSIDE_OBJECTS,
    },
    Subject {
        folder: "outside_replication",
        scenarios: OUTSIDE_REPLICATION,
    },
    Subject {
        folder: "outside_masters",
        scenarios: OUTSIDE_MASTERS,
    },
    Subject {
        folder: "random",
        scenarios: RANDOM,
    },
];
