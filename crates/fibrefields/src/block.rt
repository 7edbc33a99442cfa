// A block as numbers.
ghost use Rattle.std.specs.Prelude.{◌≡◌};
ghost use Rattle.fibrefields.specs.Numbers.{block_of, marked_of, numbers_of};

use fibre::Block;
use fibrecommands::call::NUMBERS;

// What goes over a fibre in a slot: a block, and whether it is marked bad.
#[derive(Clone, Copy, Default)]
pub struct Signal {
    pub marked: bool,
    pub block: Block,
}

// A bool is 0 or 1.
pub fn numbers_of(signal: Signal) -> [u16; NUMBERS]
    ensures { result ≡ numbers_of signal.marked signal.block }
{
    let block = signal.block;
    let [
        word_1,
        word_2,
        word_3,
        word_4,
        word_5,
        word_6,
        word_7,
        word_8,
    ] = block.words;
    [
        u16::from(signal.marked),
        u16::from(block.msgt),
        u16::from(block.phyt),
        u16::from(block.mert),
        block.control,
        word_1,
        word_2,
        word_3,
        word_4,
        word_5,
        word_6,
        word_7,
        word_8,
    ]
}

impl From<[u16; NUMBERS]> for Signal {
    fn from(numbers: [u16; NUMBERS]) -> Signal
        ensures marked { result.marked ≡ marked_of numbers }
        ensures block { result.block ≡ block_of numbers }
    {
        let [
            marked,
            msgt,
            phyt,
            mert,
            control,
            word_1,
            word_2,
            word_3,
            word_4,
            word_5,
            word_6,
            word_7,
            word_8,
        ] = numbers;
        Signal {
            marked: marked == 1,
            block: Block {
                msgt: msgt == 1,
                phyt: phyt == 1,
                mert: mert == 1,
                control,
                words: [
                    word_1, word_2, word_3, word_4, word_5, word_6, word_7, word_8,
                ],
            },
        }
    }
}
