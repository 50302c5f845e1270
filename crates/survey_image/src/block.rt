ghost use Rattle.std.specs.Prelude.{◌≡◌};
ghost use Rattle.survey_image.specs.declared.block.Block.{Block};

// Four words of an image, from a word on: a marker, or an entry of the page table. Both are four words by the rules, so an array.
#[derive(Clone, Copy)]
pub struct Block {
    pub word: u32,
    pub words: [u32; 4],
}

// What makes up a block of an image.
pub trait AsBlock {
    ghost block: { Self → Block };

    fn block(&self) -> Block
        ensures { result ≡ block self.now };
}

impl AsBlock for Block {
    ghost block = { λ b. b };

    fn block(&self) -> Block {
        *self
    }
}
