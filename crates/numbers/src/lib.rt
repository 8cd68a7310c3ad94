// Cell, block and record numbers, each its own type so that none serves for another; pointers; and a store's measures.
#![tactic(auto)]

ghost use Rattle.std.specs.Prelude.{◌≡◌, ◌*◌, ◌+◌, ◌/◌, ◌%◌, ◌≤◌, ◌<◌, eqb};
ghost use Rattle.model.specs.Measures.{base_measures, is_base, record_words, parts_for};
ghost use Rattle.model.specs.State.{null_pointer, blank_pointer, direct, indirect};
ghost use Rattle.model.specs.Table.{pointer_word, measure_word, measures_in};
ghost use Rattle.laws.specs.Ranges.{Measured};
ghost use Rattle.numbers.specs.Measures.{measures_of};

// A block's bytes, a segment's blocks, and the percentage from which a removal copies together.
#[derive(Clone, Copy, Debug, PartialEq, Eq)]
pub struct Measures {
    pub bytes: usize,
    pub blocks: usize,
    pub percent: u32,
}

impl Measures {
    // Those of a store from before they could be chosen.
    pub fn base() -> Measures
        ensures { (measures_of result ≡ base_measures) × Measured (measures_of result) }
    {
        Measures {
            bytes: Block::BYTES,
            blocks: Segment::BLOCKS,
            percent: 20,
        }
    }

    // From the header's last three words. Zeros stand for the base's.
    pub fn of_words(bytes: u32, blocks: u32, percent: u32) -> Measures
        ensures { measures_of result ≡ measures_in bytes blocks percent }
    {
        match (bytes, blocks, percent) {
            (0, 0, 0) => Measures::base(),
            _ => Measures::chosen(bytes, blocks, percent),
        }
    }

    pub fn chosen(bytes: u32, blocks: u32, percent: u32) -> Measures
        ensures { measures_of result ≡ record { block_bytes = bytes; segment_blocks = blocks; rebuild_percent = percent } }
    {
        Measures {
            bytes: bytes as usize,
            blocks: blocks as usize,
            percent,
        }
    }

    fn is_base(self) -> bool
        ensures { result ≡ is_base (measures_of self) }
    {
        self == Measures::base()
    }

    // The header's word of one of them.
    #[tactic(auto, unfolding(model::specs::Table::measure_word))]
    pub fn word(self, n: u32) -> u32
        ensures { result ≡ measure_word (measures_of self) n }
    {
        if self.is_base() { 0 } else { n }
    }

    // A segment's bytes.
    pub fn segment_bytes(self) -> usize
        requires { (self.bytes ≤ 512) × (self.blocks ≤ 16) }
        ensures { (result ≡ self.blocks * self.bytes) × (result ≤ 8192) }
    {
        self.blocks * self.bytes
    }

    // How many segments hold an image of a length.
    pub fn segments(self, length: usize) -> usize
        requires { Measured (measures_of self) × (length ≤ 4294967295) }
        ensures { result ≡ parts_for (self.blocks * self.bytes) length }
    {
        let width = self.segment_bytes();
        length.div_ceil(width)
    }
}

// A cell number counts places in the pool.
#[derive(Clone, Copy, Debug, PartialEq, Eq, PartialOrd, Ord)]
pub struct Cell(pub u32);

// A block number counts places in an image.
#[derive(Clone, Copy, Debug, PartialEq, Eq, PartialOrd, Ord)]
pub struct Block(pub u32);

// A record number counts segment records.
#[derive(Clone, Copy, Debug, PartialEq, Eq, PartialOrd, Ord)]
pub struct RecordNumber(pub u32);

// A segment of an image.
#[derive(Clone, Copy, Debug, PartialEq, Eq, PartialOrd, Ord)]
pub struct Segment(pub u32);

// A block's pointer, as its word in the table.
#[derive(Clone, Copy, Debug, PartialEq, Eq)]
pub struct Pointer(pub u32);

impl Pointer {
    // Of a block that is all zero.
    #[tactic(auto, unfolding(model::specs::Table::pointer_word))]
    pub fn null() -> Pointer
        ensures { result.0 ≡ pointer_word null_pointer }
    {
        Pointer(0)
    }

    // Of a block of 255s.
    #[tactic(auto, unfolding(model::specs::Table::pointer_word))]
    pub fn blank() -> Pointer
        ensures { result.0 ≡ pointer_word blank_pointer }
    {
        Pointer(0x300_0000)
    }

    // To a held position of a record.
    #[tactic(auto, unfolding(model::specs::Table::pointer_word))]
    pub fn direct(k: RecordNumber, position: u32) -> Pointer
        requires { (k.0 ≤ 4096) × (position < 16) }
        ensures { result.0 ≡ pointer_word (direct k.0 position) }
    {
        Pointer(0x100_0000 + (k.0 * 16 + position))
    }

    // To a block of the next newer version.
    #[tactic(auto, unfolding(model::specs::Table::pointer_word))]
    pub fn indirect(b: Block) -> Pointer
        requires { b.0 ≤ 65536 }
        ensures { result.0 ≡ pointer_word (indirect b.0) }
    {
        Pointer(0x200_0000 + b.0)
    }

    // Whether it is to a held position of a record.
    pub fn is_direct(self) -> bool
        ensures { result ≡ eqb (self.0 / 16777216) 1 }
    {
        self.0 / 0x100_0000 == 1
    }

    // Whether it is to a block of the next newer version.
    pub fn is_indirect(self) -> bool
        ensures { result ≡ eqb (self.0 / 16777216) 2 }
    {
        self.0 / 0x100_0000 == 2
    }

    // Whether it is of a block of 255s.
    pub fn is_blank(self) -> bool
        ensures { result ≡ eqb (self.0 / 16777216) 3 }
    {
        self.0 / 0x100_0000 == 3
    }

    // The record that a direct one leads to.
    pub fn record(self) -> RecordNumber
        ensures { result.0 ≡ self.0 % 16777216 / 16 }
    {
        RecordNumber(self.0 % 0x100_0000 / 16)
    }

    // The position in it.
    pub fn position(self) -> u32
        ensures { result ≡ self.0 % 16777216 % 16 }
    {
        self.0 % 0x100_0000 % 16
    }

    // The block that an indirect one names.
    pub fn block(self) -> Block
        ensures { result.0 ≡ self.0 % 16777216 }
    {
        Block(self.0 % 0x100_0000)
    }
}

impl Block {
    // Of the base measures.
    pub const BYTES: usize = 64;

    // The most that can be.
    pub const MOST_BYTES: usize = 512;

    // The block's first byte in an image.
    pub fn byte(self, bytes: usize) -> usize
        requires { bytes ≤ 512 }
        ensures { result ≡ self.0 * bytes }
    {
        self.0 as usize * bytes
    }
}

impl Segment {
    // Of the base measures.
    pub const BLOCKS: usize = 8;

    // The most that can be.
    pub const MOST_BLOCKS: usize = 16;
}

impl Cell {
    // The cell's first byte in the pool.
    pub fn byte(self, bytes: usize) -> usize
        requires { bytes ≤ 512 }
        ensures { result ≡ self.0 * bytes }
    {
        self.0 as usize * bytes
    }
}

impl RecordNumber {
    // The most that can be: no record has this number.
    pub const MOST: u32 = 4096;

    // The record's first word, where records have so many positions.
    pub fn word(self, positions: usize) -> usize
        requires { positions ≤ 16 }
        ensures { result ≡ self.0 * record_words positions }
    {
        self.0 as usize * row_words(positions)
    }
}

// How many words a record of so many positions has: the three masks, the cells, the counts.
pub fn row_words(positions: usize) -> usize
    requires { positions ≤ 16 }
    ensures { (result ≡ record_words positions) × (result ≤ 35) }
{
    3 + 2 * positions
}

// How many parts of a width there are in a length: cells in a pool.
pub fn parts(length: usize, width: usize) -> usize
    requires { 0 < width }
    ensures { result ≡ length / width }
{
    length / width
}

// How many records of so many positions there are in so many words.
pub fn rows(words: usize, positions: usize) -> usize
    requires { positions ≤ 16 }
    ensures { result ≡ words / record_words positions }
{
    parts(words, row_words(positions))
}

// How many parts of a width hold a length: blocks of an image.
pub fn parts_for(width: usize, length: usize) -> usize
    requires { (0 < width) × (width ≤ 512) × (length ≤ 4294967295) }
    ensures { result ≡ parts_for width length }
{
    length.div_ceil(width)
}
