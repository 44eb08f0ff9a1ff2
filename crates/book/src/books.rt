// An image of table blocks as a memory: its payloads, kept where a block is sound and spoiled elsewhere.
ghost use Rattle.std.specs.Prelude.{◌≡◌, ◌/◌, ◌<◌, ◌≤◌, IfOk, MatchResult, is_ok, refl};
ghost use Rattle.std.proofs.Common.{ap, ◌∙◌};
ghost use Rattle.blocks.specs.Asking.{opened};
ghost use Rattle.blocks.specs.Kinds.{kind_byte};
ghost use Rattle.blocks.specs.Layout.{payload_of};
ghost use Rattle.blocks.specs.declared.kinds.Kind.TheVariants.{Table};
ghost use Rattle.images.specs.Images.{blocks_in};
ghost use Rattle.memory.specs.Cells.{marks_of};
ghost use Rattle.questions.specs.Failures.{Makes};
ghost use Rattle.book.specs.Books.{block_at, book_asks, book_cells, sound_at, Sounds, IsShelvedAt};
ghost use Rattle.book.specs.LawfulBooks.{book_lawful};

use blocks::kinds::Kind;
use blocks::layout::{BLOCK, COVERED, HEADER, PAYLOAD};
use blocks::opening::open as open_block;
use images::checking::count_blocks;
use images::refusals::ImageError;
use memory::marks::Mark;
use memory::meaning::Memory;
use memory::refusals::MemoryRefusal;
use std::alloc::{AllocError, Global};

#[derive(Drop)]
pub struct Book<'a> {
    image: &'a [u8],
    // Whether each block is sound: decided once. (Its payload, or none, would take 24 bytes where a flag takes one.)
    sound: Vec<bool>,
    ghost few: { blocks_in image.now ≤ 8192 },
    ghost decided: { Sounds image.now sound.items },
}

// Whether the block at a place opens as a table's there.
fn is_sound(place: usize, block: &[u8]) -> bool
    ensures { place < 65536 → result ≡ is_ok (opened (kind_byte Table) place block.now) }
{
    u16::try_from(place).is_ok_and(|place| open_block(block, Kind::Table, place).is_ok())
}

// Whether each block of an image is sound.
fn soundness(heap: Global, image: &[u8]) -> Result<Vec<bool>, AllocError>
    requires { blocks_in image.now ≤ 8192 }
    ensures { IfOk result (λ sound. Sounds image.now sound.items) }
{
    image
        .chunks_exact(BLOCK)
        .enumerate()
        .map(|(place, block)| is_sound(place, block))
        .collect(heap)
}

// The payload of the block at a place.
fn payload_in(image: &[u8], place: usize) -> &[u8]
    requires { place < blocks_in image.now }
    ensures { result.now ≡ payload_of (block_at image.now place) }
{
    let block = &image[BLOCK * place..BLOCK * place + BLOCK];
    &block[HEADER..COVERED]
}

impl<'a> Book<'a> {
    // Opens an image as a book. Unsound blocks are no reason to refuse it: their bytes are spoiled.
    pub fn open(heap: Global, image: &'a [u8]) -> Result<Book<'a>, ImageError>
        ensures { Makes result (book_asks image.now) (book_asks image.now) (λ book. book.image.now ≡ image.now) }
    {
        count_blocks(Kind::Table, image)?;
        let sound = soundness(heap, image)?;
        Ok(Book { image, sound })
    }

    // Whether the block of an address is sound.
    fn sound_of(&self, at: usize) -> Result<bool, MemoryRefusal>
        ensures { MatchResult result (λ sound. (at / 496 < blocks_in self.now.image.now) × (sound ≡ sound_at self.now.image.now (at / 496))) (λ refusal. (blocks_in self.now.image.now ≤ at / 496) × (refusal ≡ MemoryRefusal.OutOfRange)) }
    {
        let sound = self
            .sound
            .get(at / PAYLOAD)
            .ok_or(MemoryRefusal::OutOfRange)?;
        Ok(*sound)
    }

    // The payload of the block of an address, none where it is spoiled.
    #[tactic(auto, using(crate::proofs::Shelved::shelved_at, crate::proofs::Shelved::none_at))]
    fn payload(&self, at: usize) -> Result<Option<&'a [u8]>, MemoryRefusal>
        ensures { MatchResult result (IsShelvedAt self.now.image.now at) (λ refusal. (blocks_in self.now.image.now ≤ at / 496) × (refusal ≡ MemoryRefusal.OutOfRange)) }
    {
        if self.sound_of(at)? {
            Ok(Some(payload_in(self.image, at / PAYLOAD)))
        } else {
            Ok(None)
        }
    }
}

// A book never changes.
#[tactic(auto, using(crate::proofs::Shelved::shelved))]
impl<'a> Memory for Book<'a> {
    ghost cells = { λ b. book_cells b.image.now };

    ghost lawful = { λ b. book_lawful b.image.now b.few };

    ghost stays = { λ b c. b ≡ c };

    ghost steady = { record {
      idle = λ b. refl;
      onward = λ a b c p q. p ∙ q;
      marks = λ b c p. ap (λ x. marks_of (book_cells x.image.now)) p;
    } };

    fn size(&self) -> usize {
        PAYLOAD * (self.image.len() / BLOCK)
    }

    fn mark(&mut self, at: usize) -> Result<Mark, MemoryRefusal> {
        Ok(match self.payload(at)? {
            Some(_) => Mark::Kept,
            None => Mark::Spoiled,
        })
    }

    fn read(&mut self, at: usize) -> Result<u8, MemoryRefusal> {
        let payload = self.payload(at)?.ok_or(MemoryRefusal::Spoiled)?;
        Ok(payload[at % PAYLOAD])
    }

    fn write(&mut self, at: usize, _byte: u8) -> Result<(), MemoryRefusal> {
        Err(match self.payload(at)? {
            Some(_) => MemoryRefusal::NotOpen,
            None => MemoryRefusal::Spoiled,
        })
    }
}
