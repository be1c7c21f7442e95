// The free chain of a sound partition: how many blocks are free, the first, the last, and the one behind a block.
ghost use Rattle.std.specs.Prelude.{◌≡◌};
ghost use Rattle.drive.specs.Address.{pda_block};
ghost use Rattle.image.specs.View.{pair};
ghost use Rattle.image.specs.Image.{view};
ghost use Rattle.volume.specs.Words.{next_at};
ghost use Rattle.volume.specs.Files.{free_head};
ghost use Rattle.volume.specs.Plans.{free_tail};
ghost use Rattle.volume.specs.Calls.{room};
ghost use Rattle.records.specs.Records.{Block};

use crate::Sound;
use volume::words::{FREE_HEAD, FREE_TAIL, NEXT, NUMBER_FREE};

impl Sound<'_> {
    // How many blocks are free.
    #[tactic(auto, using(crate::proofs::Laws::room_is))]
    pub fn room(&self) -> usize
        ensures { result ≡ room self.now.volume.p (view self.now.volume.img.now) }
    {
        image::pair(self.volume.img, self.volume.p.s, NUMBER_FREE)
    }

    // The first free block.
    #[tactic(auto, using(crate::proofs::Laws::block_head))]
    pub fn head(&self) -> usize
        ensures { (result ≡ free_head self.now.volume.p (view self.now.volume.img.now)) × (Block self.now.volume.img.now result) }
    {
        let volume = &self.volume;
        drive::lda_block(
            volume.p.drive,
            image::pair(volume.img, volume.p.s, FREE_HEAD),
        )
    }

    // The last free block.
    #[tactic(auto, using(crate::proofs::Laws::block_tail))]
    pub fn tail(&self) -> usize
        ensures { (result ≡ free_tail self.now.volume.p (view self.now.volume.img.now)) × (Block self.now.volume.img.now result) }
    {
        let volume = &self.volume;
        drive::lda_block(
            volume.p.drive,
            image::pair(volume.img, volume.p.s, FREE_TAIL),
        )
    }
}

// The block that the next link of block b names.
pub fn next(img: &[u8], drive: usize, b: usize) -> usize
    requires { Block img.now b }
    ensures { result ≡ pda_block drive (pair (view img.now) b next_at) }
{
    drive::pda_block(drive, image::pair(img, b, NEXT))
}
