// Lent bytes as words, with what a scan of them has found.
ghost use Rattle.std.specs.Prelude.{◌≡◌, ◌+◌, ◌*◌, ◌≤◌, length, false};
ghost use Rattle.words.specs.Words.{word, float, vec};
ghost use Rattle.words.specs.Inner.{all_plain, Plain};

use super::read::{all_plain, float_of, word_at};
use relay_math::Vec3;

// Where `plain` says that no word is a NaN's pattern, no float that is read is tested for one again (docs/SPEED.md says what that saves). Where it does not, nothing is said.
#[derive(Clone, Copy)]
pub struct Words<'a> {
    pub bytes: &'a [u8],
    pub plain: bool,
    pub ghost known: { Plain plain bytes.now },
}

impl<'a> Words<'a> {
    // Not looked through.
    pub fn new(bytes: &'a [u8]) -> Self
        ensures lent { result.bytes ≡ bytes.entry }
        ensures plain { result.plain ≡ false }
    {
        Words {
            bytes,
            plain: false,
        }
    }

    // Looked through, all of their words.
    pub fn scanned(bytes: &'a [u8], count: usize) -> Self
        requires { length bytes.now ≡ 4 * count }
        ensures bytes { result.bytes ≡ bytes.entry }
        ensures plain { result.plain ≡ all_plain bytes.now count }
    {
        Words {
            bytes,
            plain: all_plain(bytes, count),
        }
    }

    pub fn word(&self, k: usize) -> u32
        requires { 4 * k + 4 ≤ length self.now.bytes.now }
        ensures { result ≡ word self.now.bytes.now k }
    {
        word_at(self.bytes, k)
    }

    #[tactic(auto, unfolding(crate::specs::Words::float))]
    pub fn float(&self, k: usize) -> f32
        requires { 4 * k + 4 ≤ length self.now.bytes.now }
        ensures { result ≡ float self.now.bytes.now k }
    {
        let w = self.word(k);
        if self.plain {
            f32::from_bits(w)
        } else {
            float_of(w)
        }
    }

    // Three of them.
    #[tactic(auto, unfolding(crate::specs::Words::vec))]
    pub fn vec(&self, k: usize) -> Vec3
        requires { 4 * k + 12 ≤ length self.now.bytes.now }
        ensures { result ≡ vec self.now.bytes.now k }
    {
        Vec3(self.float(k), self.float(k + 1), self.float(k + 2))
    }
}
