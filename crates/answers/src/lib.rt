// The answers as C has them: a refusal's number, 0 for an accepted call, and the call's own fields, 0 in a refusal. Each is made from what the call answers.
#![tactic(auto)]

use closing_backup::Each;
use refusals::{Refusal, answered};
use restore::Image;
use tally::Tallied;
use tills::Listed;

#[repr(C)]
#[derive(Clone, Copy, Debug, PartialEq, Eq)]
pub struct TableLength {
    pub refusal: u32,
    pub words: u32,
}

impl From<Result<u32, Refusal>> for TableLength {
    ghost use Rattle.std.specs.Prelude.{◌≡◌};
    ghost use Rattle.layout.specs.Layout.{length_result};
    ghost use Rattle.answers.specs.Answers.{length_answer};

    ghost from_gives = { λ r a. length_answer a ≡ length_result r };

    fn from(call: Result<u32, Refusal>) -> TableLength {
        TableLength {
            refusal: answered(&call),
            words: call.unwrap_or(0),
        }
    }
}

#[repr(C)]
#[derive(Clone, Copy, Debug, PartialEq, Eq)]
pub struct BackedUp {
    pub refusal: u32,
    pub version: u32,
}

impl From<Result<u32, Refusal>> for BackedUp {
    ghost use Rattle.std.specs.Prelude.{◌≡◌, List, ℕ};
    ghost use Rattle.backup.specs.Call.{backup_result};
    ghost use Rattle.answers.specs.Answers.{backed_up_answer};

    ghost from_gives = { λ r a. (pool table : List ℕ) → backed_up_answer a pool table ≡ backup_result r pool table };

    fn from(call: Result<u32, Refusal>) -> BackedUp {
        BackedUp {
            refusal: answered(&call),
            version: call.unwrap_or(0),
        }
    }
}

#[repr(C)]
#[derive(Clone, Copy, Debug, PartialEq, Eq)]
pub struct Retired {
    pub refusal: u32,
    pub length: u32,
}

impl From<Result<u32, Refusal>> for Retired {
    ghost use Rattle.std.specs.Prelude.{◌≡◌, List, ℕ};
    ghost use Rattle.retire.specs.Answers.{retire_result};
    ghost use Rattle.answers.specs.Answers.{retired_answer};

    ghost from_gives = { λ r a. (pool table : List ℕ) → retired_answer a pool table ≡ retire_result r pool table };

    fn from(call: Result<u32, Refusal>) -> Retired {
        Retired {
            refusal: answered(&call),
            length: call.unwrap_or(0),
        }
    }
}

#[repr(C)]
#[derive(Clone, Copy, Debug, PartialEq, Eq)]
pub struct VersionFound {
    pub refusal: u32,
    pub version: u32,
}

impl From<Result<u32, Refusal>> for VersionFound {
    ghost use Rattle.std.specs.Prelude.{◌≡◌};
    ghost use Rattle.tills.specs.Answers.{version_on_result};
    ghost use Rattle.answers.specs.Answers.{version_found};

    ghost from_gives = { λ r a. version_found a ≡ version_on_result r };

    fn from(call: Result<u32, Refusal>) -> VersionFound {
        VersionFound {
            refusal: answered(&call),
            version: call.unwrap_or(0),
        }
    }
}

#[repr(C)]
#[derive(Clone, Copy, Debug, PartialEq, Eq)]
pub struct StreamWritten {
    pub refusal: u32,
    pub length: u32,
}

impl From<Result<u32, Refusal>> for StreamWritten {
    ghost use Rattle.std.specs.Prelude.{◌≡◌, List, ℕ};
    ghost use Rattle.stream_write.specs.Answers.{write_result};
    ghost use Rattle.answers.specs.Answers.{stream_written};

    ghost from_gives = { λ r a. (output : List ℕ) → stream_written a output ≡ write_result r output };

    fn from(call: Result<u32, Refusal>) -> StreamWritten {
        StreamWritten {
            refusal: answered(&call),
            length: call.unwrap_or(0),
        }
    }
}

#[repr(C)]
#[derive(Clone, Copy, Debug, PartialEq, Eq)]
pub struct StreamRead {
    pub refusal: u32,
    pub length: u32,
}

impl From<Result<u32, Refusal>> for StreamRead {
    ghost use Rattle.std.specs.Prelude.{◌≡◌, List, ℕ};
    ghost use Rattle.stream_read.specs.Answers.{read_result};
    ghost use Rattle.answers.specs.Answers.{stream_read};

    ghost from_gives = { λ r a. (output : List ℕ) → stream_read a output ≡ read_result r output };

    fn from(call: Result<u32, Refusal>) -> StreamRead {
        StreamRead {
            refusal: answered(&call),
            length: call.unwrap_or(0),
        }
    }
}

#[repr(C)]
#[derive(Clone, Copy, Debug, PartialEq, Eq)]
pub struct Restored {
    pub refusal: u32,
    pub length: u32,
    pub hops: u32,
}

impl From<Result<Image, Refusal>> for Restored {
    ghost use Rattle.std.specs.Prelude.{◌≡◌, List, ℕ};
    ghost use Rattle.restore.specs.Answers.{restore_result};
    ghost use Rattle.answers.specs.Answers.{restore_answer};

    ghost from_gives = { λ r a. (output : List ℕ) → restore_answer a output ≡ restore_result r output };

    fn from(call: Result<Image, Refusal>) -> Restored {
        match call {
            Ok(restored) => Restored {
                refusal: 0,
                length: restored.length,
                hops: restored.hops,
            },
            Err(refusal) => Restored {
                refusal: refusal.into(),
                length: 0,
                hops: 0,
            },
        }
    }
}

#[repr(C)]
#[derive(Clone, Copy, Debug, PartialEq, Eq)]
pub struct Listing {
    pub refusal: u32,
    pub oldest: u32,
    pub newest: u32,
    pub last: u32,
}

impl From<Result<Listed, Refusal>> for Listing {
    ghost use Rattle.std.specs.Prelude.{◌≡◌};
    ghost use Rattle.tills.specs.Answers.{listing_result};
    ghost use Rattle.answers.specs.Answers.{listing_answer};

    ghost from_gives = { λ r a. listing_answer a ≡ listing_result r };

    fn from(call: Result<Listed, Refusal>) -> Listing {
        match call {
            Ok(listed) => Listing {
                refusal: 0,
                oldest: listed.oldest,
                newest: listed.newest,
                last: listed.last,
            },
            Err(refusal) => Listing {
                refusal: refusal.into(),
                oldest: 0,
                newest: 0,
                last: 0,
            },
        }
    }
}

#[repr(C)]
#[derive(Clone, Copy, Debug, PartialEq, Eq)]
pub struct Tally {
    pub refusal: u32,
    pub cells: u32,
    pub records: u32,
    pub counts: u32,
}

impl From<Result<Tallied, Refusal>> for Tally {
    ghost use Rattle.std.specs.Prelude.{◌≡◌};
    ghost use Rattle.tally.specs.Answers.{tally_result};
    ghost use Rattle.answers.specs.Answers.{tally_answer};

    ghost from_gives = { λ r a. tally_answer a ≡ tally_result r };

    fn from(call: Result<Tallied, Refusal>) -> Tally {
        match call {
            Ok(tallied) => Tally {
                refusal: 0,
                cells: tallied.cells,
                records: tallied.records,
                counts: tallied.counts,
            },
            Err(refusal) => Tally {
                refusal: refusal.into(),
                cells: 0,
                records: 0,
                counts: 0,
            },
        }
    }
}

// The refusal is that of the call as a whole.
#[repr(C)]
#[derive(Clone, Copy, Debug, PartialEq, Eq)]
pub struct AllBackedUp {
    pub refusal: u32,
    pub refusals: [u32; 16],
    pub versions: [u32; 16],
}

impl From<Result<Each, Refusal>> for AllBackedUp {
    ghost use Rattle.std.specs.Prelude.{◌≡◌, List, ℕ};
    ghost use Rattle.closing_backup.specs.Answers.{closing_result};
    ghost use Rattle.answers.specs.Answers.{all_backed_up};

    ghost from_gives = { λ r a. (pool table : List ℕ) → all_backed_up a pool table ≡ closing_result r pool table };

    fn from(call: Result<Each, Refusal>) -> AllBackedUp {
        match call {
            Ok(each) => {
                let refusals = each.refusals;
                let versions = each.versions;
                AllBackedUp {
                    refusal: 0,
                    refusals,
                    versions,
                }
            }
            Err(refusal) => AllBackedUp {
                refusal: refusal.into(),
                refusals: [0; 16],
                versions: [0; 16],
            },
        }
    }
}

// The sums are tenths of a cent.
#[repr(C)]
#[derive(Clone, Copy, Debug, PartialEq, Eq)]
pub struct Bill {
    pub refusal: u32,
    pub sums: [u32; 16],
}

impl From<Result<[u32; 16], Refusal>> for Bill {
    ghost use Rattle.std.specs.Prelude.{◌≡◌};
    ghost use Rattle.bill_sums.specs.Answers.{bill_result};
    ghost use Rattle.answers.specs.Answers.{billed};

    ghost from_gives = { λ r a. billed a ≡ bill_result r };

    fn from(call: Result<[u32; 16], Refusal>) -> Bill {
        match call {
            Ok(sums) => Bill { refusal: 0, sums },
            Err(refusal) => Bill {
                refusal: refusal.into(),
                sums: [0; 16],
            },
        }
    }
}

#[repr(C)]
#[derive(Clone, Copy, Debug, PartialEq, Eq)]
pub struct LaidOut {
    pub refusal: u32,
}

impl From<Result<(), Refusal>> for LaidOut {
    ghost use Rattle.std.specs.Prelude.{◌≡◌};
    ghost use Rattle.refusals.specs.Refusals.{refusal_of};

    ghost from_gives = { λ r a. a.refusal ≡ refusal_of r };

    fn from(call: Result<(), Refusal>) -> LaidOut {
        LaidOut {
            refusal: answered(&call),
        }
    }
}

#[repr(C)]
#[derive(Clone, Copy, Debug, PartialEq, Eq)]
pub struct Offered {
    pub refusal: u32,
}

impl From<Result<(), Refusal>> for Offered {
    ghost use Rattle.std.specs.Prelude.{◌≡◌};
    ghost use Rattle.refusals.specs.Refusals.{refusal_of};

    ghost from_gives = { λ r a. a.refusal ≡ refusal_of r };

    fn from(call: Result<(), Refusal>) -> Offered {
        Offered {
            refusal: answered(&call),
        }
    }
}

#[repr(C)]
#[derive(Clone, Copy, Debug, PartialEq, Eq)]
pub struct RightsSet {
    pub refusal: u32,
}

impl From<Result<(), Refusal>> for RightsSet {
    ghost use Rattle.std.specs.Prelude.{◌≡◌};
    ghost use Rattle.refusals.specs.Refusals.{refusal_of};

    ghost from_gives = { λ r a. a.refusal ≡ refusal_of r };

    fn from(call: Result<(), Refusal>) -> RightsSet {
        RightsSet {
            refusal: answered(&call),
        }
    }
}
