//! Why a volume, a policy or a line of a script is refused, in words.
use mm_base::{PolicyKind, TextKind, VolumeKind};

/// Why a volume is refused at a place.
pub fn why_no_volume(kind: VolumeKind) -> &'static str {
    match kind {
        VolumeKind::Short => "a volume header has at least 64 bytes, and there are fewer",
        VolumeKind::Signature => "a volume has its signature here, _FVH, and this isn't it",
        VolumeKind::HeaderLength => {
            "the volume header's length is below 64, odd, or over the length of the file"
        }
        VolumeKind::HeaderSum => "the volume header's 16-bit words don't sum up to 0",
        VolumeKind::Revision => "the volume header's revision isn't 2",
        VolumeKind::FileSystem => "the volume's file system is neither FFS2 nor FFS3",
        VolumeKind::Length => {
            "the volume's length is below its header's, or over the length of the file, which may have been cut"
        }
        VolumeKind::ExtHeader => {
            "the extended header that this points to has fewer than 20 bytes, or leads past the volume's end"
        }
        VolumeKind::FileSum => "the bytes of the file header that stands here don't sum up to 0",
        VolumeKind::FileSize => {
            "the size of the file that stands here is below its header's or leads past the volume's end, or it is a large file where none may be"
        }
    }
}

/// Why a policy is refused at a place.
pub fn why_no_policy(kind: PolicyKind) -> &'static str {
    match kind {
        PolicyKind::File => {
            "the policy file's body isn't sound, one of its sections is refused, or it has no raw section"
        }
        PolicyKind::Short => {
            "the policy ends here, and its header has 16 bytes and each of its rules 40"
        }
        PolicyKind::Magic => "a policy has its signature here, MMSP, and this isn't it",
        PolicyKind::Version => "the policy's version isn't 1",
        PolicyKind::Reserved => "the reserved field isn't 0",
        PolicyKind::Count => "the policy has more than 1024 rules",
        PolicyKind::Fuel => "the fuel is 0, or over 1000000",
        PolicyKind::Kind => { "the rule's kind is none of 1 memory, 2 I/O, 3 MSR and 4 save state" }
        PolicyKind::Action => "the rule's action is neither 0 deny nor 1 allow",
        PolicyKind::Rights => {
            "the rule's rights are not those of its action: from 1 to 3 to allow, 0 to deny"
        }
        PolicyKind::Length => "the rule's range is empty, or ends past 2^64",
        PolicyKind::Trailing => "bytes stand here after the last rule",
    }
}

/// Why a line of a script is refused. In a text without handlers no line begins with the word `handler`.
pub fn why_no_script(kind: TextKind, handlers: bool) -> &'static str {
    match kind {
        TextKind::Unknown => why_unknown(handlers),
        TextKind::Order => why_out_of_order(handlers),
        TextKind::Words => "it has too many or too few words, or one that such a line doesn't know",
        TextKind::Number =>
            "one of its words can't be read as the number, bytes or GUID that stand there",
        TextKind::Range => why_out_of_range(handlers),
        TextKind::Missing => "the script has no line that says anything",
    }
}

fn why_unknown(handlers: bool) -> &'static str {
    if handlers {
        "its first word begins no line: a line is lanes, cell, handler, poke, fill, ring, step or run"
    } else {
        "its first word begins no line: a line is lanes, cell, poke, fill, ring, step or run"
    }
}

fn why_out_of_order(handlers: bool) -> &'static str {
    if handlers {
        "it may not stand here: lanes stands first and once, cell and handler before all that happens"
    } else {
        "it may not stand here: lanes stands first and once, cell before all that happens"
    }
}

fn why_out_of_range(handlers: bool) -> &'static str {
    if handlers {
        "a number is out of its range or names what isn't there, there are more bytes than the lane holds, a register is named twice, or it is a handler line past the 64th or a ring line past the 8192nd"
    } else {
        "a number is out of its range or names what isn't there, there are more bytes than the lane holds, a register is named twice, or it is a ring line past the 8192nd"
    }
}
