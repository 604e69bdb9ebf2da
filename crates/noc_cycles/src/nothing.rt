//! Large values with nothing in them.
//!
//! Each is a constant, so that a push copies it straight to where it stands on the heap, and takes
//! no room for it on the stack.

use crate::block::{Block, Work};
use noc_columns::{
    CHANNELS, Decided, Digits, Due, GRANTS, Grant, Grants, Injection, Inputs, Left, Links, Marks,
    Outputs, PORTS, Picks, Planes, REQUESTS, ROUTERS, Returned, SOON, Sends, Sources, Standing,
    Switch, Verdicts, WORDS, Words,
};

/// A block.
pub(crate) const NO_BLOCK: Block = Block {
    before: [0; 6],
    inputs: Inputs {
        waiting: NO_WORDS,
        active: NO_WORDS,
        ended: NO_WORDS,
        ahead: NO_WORDS,
        len: NO_PLANES,
    },
    outputs: Outputs {
        draining: NO_WORDS,
        credit: NO_PLANES,
    },
    switch: Switch { ahead: NO_WORDS },
    injection: Injection {
        injecting: NO_WORDS,
        went: NO_WORDS,
        begun: NO_WORDS,
    },
    grants: Grants {
        granted: NO_WORDS,
        sends: Sends {
            port: NO_DIGITS,
            vc: NO_DIGITS,
        },
        count: 0,
        given: [NO_GRANT; GRANTS],
    },
    marks: Marks {
        waiting: [0; ROUTERS],
        wanted: [0; ROUTERS],
        idle: [0; ROUTERS],
        asking: 0,
        sets: [[0; CHANNELS]; ROUTERS],
        turns: [[0; CHANNELS]; ROUTERS],
        requests: [0; REQUESTS],
    },
    packets: [[0; CHANNELS]; ROUTERS],
    sources: Sources {
        left: NONE_LEFT,
        due: Due {
            at: [0; ROUTERS],
            ready: 0,
            next: 0,
            soon: [0; SOON],
            until: 0,
        },
        queue: [0; ROUTERS],
    },
    behind: [0; 6],
};

/// What is worked out in a cycle.
pub(crate) const NO_WORK: Work = Work {
    before: [0; 6],
    came: NO_LINKS,
    returned: Returned {
        some: NO_WORDS,
        home: NO_WORDS,
    },
    standing: Standing {
        supplied: NO_WORDS,
        heads: NO_WORDS,
        ready: NO_WORDS,
        last: NO_WORDS,
    },
    decided: Decided {
        picked: NO_WORDS,
        past: NO_WORDS,
        sends: NO_WORDS,
    },
    picks: Picks {
        any: NO_PORTS,
        tail: NO_PORTS,
        port: NO_PORT_DIGITS,
        vc: NO_PORT_DIGITS,
    },
    lost: NO_WORDS,
    verdicts: Verdicts {
        active: NO_WORDS,
        no_credit: NO_WORDS,
        moved: NO_WORDS,
    },
    arrived: NO_WORDS,
    leaving: 0,
    heading: 0,
};

const NO_GRANT: Grant = Grant {
    router: 0,
    index: 0,
    port: 0,
    vc: 0,
};

const NO_LINKS: Links<Words> = Links {
    flits: NO_WORDS,
    tails: NO_WORDS,
    credits: NO_WORDS,
};

const NO_WORDS: Words = [0; WORDS];

const NO_PLANES: Planes<Words> = Planes {
    ones: NO_WORDS,
    twos: NO_WORDS,
    fours: NO_WORDS,
    eights: NO_WORDS,
    sixteens: NO_WORDS,
};

const NO_DIGITS: Digits<Words> = Digits {
    ones: NO_WORDS,
    twos: NO_WORDS,
    fours: NO_WORDS,
};

const NO_PORTS: [u64; PORTS] = [0; PORTS];

const NO_PORT_DIGITS: Digits<[u64; PORTS]> = Digits {
    ones: NO_PORTS,
    twos: NO_PORTS,
    fours: NO_PORTS,
};

/// No flits of packets.
pub(crate) const NONE_LEFT: Left = Left {
    ones: 0,
    twos: 0,
    fours: 0,
    eights: 0,
    sixteens: 0,
    thirty_twos: 0,
};
