// The answers that a text is made of.

ghost use Rattle.answer_text.specs.Inner.Sound.{SoundBlocks};

use answer_blocks::blocks::Blocks;

// No place in the blocks lies outside them, and no value is past the largest.
#[derive(Clone, Copy)]
pub struct Answers<'a> {
    pub blocks: Blocks<'a>,
    ghost sound: { SoundBlocks blocks.width blocks.words.now },
}
