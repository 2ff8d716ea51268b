//! The figures that a host keeps to.
ghost use Rattle.std.specs.Prelude.{◌≡◌};
ghost use Rattle.cc_names.specs.Sizes.{bank_length, most_references, most_roots, most_slots, weak_length};
ghost use Rattle.cc_host.specs.Hosted.{roots};
ghost use Rattle.cc_host.specs.Places.{first_place, places};

/// A law: these are the figures, so that no constant of the code can change them unseen. A script names 1024 registers of each kind,
/// and 256 weak ones; an object has at most 256 slots; a host has 1023 numbered roots of each kind, and behind them, from register
/// 1024 on, places for 1 073 740 800 roots without number. With 1024 native registers 256 001 025 references may lead to one native.
pub fn figures_are_these()
    ensures bank_length { bank_length ≡ 1024 }
    ensures most_slots { most_slots ≡ 256 }
    ensures weak_length { weak_length ≡ 256 }
    ensures most_roots { most_roots ≡ 1073741824 }
    ensures roots { roots ≡ 1023 }
    ensures first_place { first_place ≡ 1024 }
    ensures places { places ≡ 1073740800 }
    ensures most_references { most_references 1024 ≡ 256001025 }
{}
