// The profile: which rules a tick flies by. Set-up chooses it, and no tick changes it.
ghost use Rattle.std.specs.Prelude.{◌≡◌};
ghost use Rattle.joint_tick.specs.Profile.{profile_word, is_profile, profile_of, read_profile};

// The old rules, or those of a craft that lost a rotor and can no longer hold yaw.
#[derive(Clone, Copy, PartialEq, Eq)]
pub enum Profile {
    Whole,
    LostRotor,
}

// A word that is no profile's.
#[derive(Clone, Copy, PartialEq, Eq)]
pub struct UnknownProfile(pub u32);

impl From<Profile> for u32 {
    ghost from_gives = { λ profile word. word ≡ profile_word profile };

    fn from(profile: Profile) -> u32 {
        match profile {
            Profile::Whole => 0,
            Profile::LostRotor => 1,
        }
    }
}

impl TryFrom<u32> for Profile {
    type Error = UnknownProfile;

    ghost try_from_gives = { λ word r. r ≡ read_profile word };

    #[tactic(auto, using(laws::proofs::Prelude::ne_eqb), unfolding(crate::specs::Profile::is_profile))]
    fn try_from(word: u32) -> Result<Profile, UnknownProfile> {
        match word {
            0 => Ok(Profile::Whole),
            1 => Ok(Profile::LostRotor),
            _ => Err(UnknownProfile(word)),
        }
    }
}

pub fn profile_word(profile: Profile) -> u32
    ensures { result ≡ profile_word profile }
{
    u32::from(profile)
}

pub fn is_profile(word: u32) -> bool
    ensures { result ≡ is_profile word }
{
    Profile::try_from(word).is_ok()
}

// Of any word, so that a reader asks for nothing: set-up and a tick refuse a word that is no profile's before they read it.
#[tactic(auto, unfolding(crate::specs::Profile::is_profile))]
pub fn profile_of(word: u32) -> Profile
    ensures { result ≡ profile_of word }
{
    Profile::try_from(word).unwrap_or(Profile::Whole)
}
