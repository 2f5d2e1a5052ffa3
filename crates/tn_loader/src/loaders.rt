ghost use Rattle.std.specs.Prelude.{◌≡◌, ◌<◌};
ghost use Rattle.tn_loader.specs.Instructions.{assembled, StandAtOffsets, JumpToRows};
ghost use Rattle.tn_loader.specs.Primary.{primary_bytes, primary_table};
ghost use Rattle.tn_loader.specs.Secondary.{secondary_bytes, secondary_table};

/// How many bytes the primary bootstrap has. The control byte before it has this value too.
pub const PRIMARY_SIZE: usize = 57;

/// How many bytes the secondary loader has. The word before it has this value.
pub const SECONDARY_SIZE: usize = 55;

/// The code of the secondary loader, which takes commands from the boot link. It is this project's
/// own, of instructions as "Transputer Instruction Set: a compiler writer's guide" codes them.
pub const SECONDARY: [u8; SECONDARY_SIZE] = [
    // 0: a command comes into locals 0, 1 and 2
    0x10, 0x73, 0x4C, 0xF7,
    // 4: a LOAD goes on at 49
    0x70, 0x22, 0xAA,
    // 7: all but a FORWARD goes on at 39
    0x70, 0xC1, 0x21, 0xAC,
    // 11: up to 128 bytes left go on at 20
    0x72, 0x28, 0x40, 0xF9, 0xA4,
    // 16: of more, a chunk is 128 bytes
    0x28, 0x40, 0xD4, 0x02,
    // 20: the last chunk is all that is left
    0x72, 0xD4,
    // 22: the chunk comes by the boot link
    0x15, 0x73, 0x74, 0xF7,
    // 26: and goes out on the channel
    0x15, 0x71, 0x74, 0xFB,
    // 30: so many bytes fewer are left
    0x72, 0x74, 0xF4, 0xD2,
    // 34: with none left comes the next command, else the next chunk
    0x72, 0x62, 0xAB, 0x61, 0x04,
    // 39: a NOP is done, so comes the next command
    0x70, 0xC2, 0x62, 0xA5,
    // 43: RUN sets the workspace pointer and calls the entry
    0x71, 0x72, 0x23, 0xFC, 0xF0, 0xF6,
    // 49: LOAD stores its bytes, then comes the next command
    0x71, 0x73, 0x72, 0xF7, 0x63, 0x09,
];

/// The code of the primary bootstrap for a processor that boots by link `k`, which is below 4. It
/// clears the flags and queues, stores the secondary loader that comes by the same link, and
/// calls it. It is this project's own.
#[tactic(auto, unfolding(crate::specs::Primary::primary_bytes))]
pub fn primary(k: u8) -> [u8; PRIMARY_SIZE]
    requires { k < 4 }
    ensures bytes { result ≡ primary_bytes k }

    // The bytes are the codings of the instructions in the table, and each row of it stands where
    // it says.
    ensures assembled { result ≡ assembled (primary_table k) }
    ensures offsets { StandAtOffsets (primary_table k) }
{
    // `ldnlp`, from MostNeg to the input channel of the boot link, which is word 4 + k.
    let channel = 0x54 + k;
    [
        // 0: makes room for the words that an input saves below the workspace
        0xB4,
        // 1: clears Error and HaltOnError
        0x22, 0xF9, 0x25, 0xF7,
        // 5: empties the queues of both priorities
        0x24, 0xF2, 0x21, 0xF8, 0x24, 0xF2, 0x21, 0xFC,
        // 13: starts the clocks
        0x24, 0xF2, 0x25, 0xF4,
        // 17: empties the timer queues, whose fronts are words 9 and 10
        0x24, 0xF2, 0x24, 0xF2, 0xE9, 0x24, 0xF2, 0x24, 0xF2, 0xEA,
        // 27: reads the length of the secondary into local 0
        0x10, 0x24, 0xF2, channel, 0x44, 0xF7,
        // 33: stores the secondary 64 words above MostNeg
        0x24, 0xF2, 0x24, 0x50, 0x24, 0xF2, channel, 0x70, 0xF7,
        // 42: sets the workspace pointer 128 words above MostNeg
        0x24, 0xF2, 0x28, 0x50, 0x23, 0xFC,
        // 48: leaves the boot link's input channel in local 3
        0x24, 0xF2, channel, 0xD3,
        // 52: calls the secondary
        0x24, 0xF2, 0x24, 0x50, 0xF6,
    ]
}

/// The code of the secondary loader.
#[tactic(auto, unfolding(crate::specs::Secondary::secondary_bytes, crate::specs::Secondary::secondary_table))]
pub fn secondary() -> [u8; SECONDARY_SIZE]
    ensures bytes { result ≡ secondary_bytes }

    // The bytes are the codings of the instructions in the table, each row of it stands where it
    // says, and each jump goes to the start of a row.
    ensures assembled { result ≡ assembled secondary_table }
    ensures offsets { StandAtOffsets secondary_table }
    ensures jumps { JumpToRows secondary_table }
{
    SECONDARY
}
