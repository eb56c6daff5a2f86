//! What is reported of one file.

use crate::found::Found;
use crate::judge::Finding;
use crate::sites::{MOST_PLACES, Sites, Spot};
use crate::texts::Code;
use gj_coords::{KINDS, Kind, Warnings};
use gj_hints::Hint;
use gj_json::Path;
use gj_rules::{SeqVerdict, Verdict};

/// A file that was checked.
#[derive(Drop)]
pub struct Report<'a> {
    pub name: &'a [u8],
    pub finding: Finding,
    /// None where no place was sought.
    pub sites: Option<&'a Sites>,
    pub passes: bool,
    /// What is at the place of the fault, where that is reported. It is advice, as the hint is.
    pub found: Option<Found>,
    /// What the file looks like, where its bytes show it. It is advice, and no part of the finding.
    pub hint: Option<Hint>,
}

/// A fault or a kind of warning, and its place.
#[derive(Clone, Copy)]
pub struct Told {
    pub code: Code,
    pub place: u64,
}

ghost use Rattle.std.specs.Prelude.{◌≡◌, ◌<◌, ◌≤◌, ◌-◌, ◌^◌, ◌++◌, ◌∷◌, [], ℕ, List, Option, length, get_or};
ghost use Rattle.gj_rules.specs.declared.records.framing.Framing.{Framing};
ghost use Rattle.std.specs.List.{Contains, filter};
ghost use Rattle.std.specs.List.Sorted.{IsNonDecreasing};
ghost use Rattle.gj_coords.specs.Warnings.{kinds};
ghost use Rattle.gj_coords.specs.declared.kind.Kind.TheVariants.{W1};
ghost use Rattle.geolint_report.specs.Finding.{fault_in};
ghost use Rattle.geolint_report.specs.Internal.SoughtPlaces.{first_or_none, is_sought};
ghost use Rattle.geolint_report.specs.Report.{warning_of, IsFirstPlace};
ghost use Rattle.geolint_report.specs.Sites.{AreRight, ArePaths, NoneFound, IsUnread, sought};

impl Finding {
    ghost use Rattle.std.specs.Prelude.{◌≡◌, ◌<◌, ◌-◌, ◌^◌, ℕ, List, Option, None};
    ghost use Rattle.gj_rules.specs.declared.records.framing.Framing.{Framing};
    ghost use Rattle.std.specs.List.{Contains};
    ghost use Rattle.std.specs.List.Sorted.{IsNonDecreasing};
    ghost use Rattle.geolint_report.specs.Finding.{fault_of, warnings_of, record_of, records_of, word_of};
    ghost use Rattle.geolint_report.specs.Report.{has_places, IsPlaceOf, IsToldPlace};
    ghost use Rattle.geolint_report.specs.Sites.{AreRight, ArePaths, NoneFound, IsUnread, sought};

    /// The warnings, where the file is valid.
    pub fn warnings(&self) -> Option<Warnings>
        ensures { result ≡ warnings_of self.now }
    {
        match self {
            Finding::Text(Verdict::Valid(warnings)) => Some(*warnings),
            Finding::Sequence(SeqVerdict::Valid { warnings, .. }) => Some(*warnings),
            _ => None,
        }
    }

    /// Why the file is not valid, where it is asked.
    pub fn fault(&self) -> Option<Told>
        ensures { result ≡ fault_of self.now }
    {
        match self {
            Finding::Text(verdict) => fault_in(*verdict),
            Finding::Sequence(SeqVerdict::Record { verdict, .. }) => fault_in(*verdict),
            _ => None,
        }
    }

    /// The record that is not valid, in a sequence.
    pub fn record(&self) -> Option<u64>
        ensures { result ≡ record_of self.now }
    {
        match self {
            Finding::Sequence(SeqVerdict::Record { number, .. }) => Some(*number),
            _ => None,
        }
    }

    /// How many records there are, in a valid sequence.
    pub fn records(&self) -> Option<u64>
        ensures { result ≡ records_of self.now }
    {
        match self {
            Finding::Sequence(SeqVerdict::Valid { records, .. }) => Some(*records),
            _ => None,
        }
    }

    /// The word for what the file is.
    pub fn word(&self) -> &'static [u8]
        ensures { result.now ≡ word_of self.now }
    {
        match self {
            Finding::Text(Verdict::Valid(_)) | Finding::Sequence(SeqVerdict::Valid { .. }) => {
                b"valid"
            }
            Finding::Text(Verdict::Broken(_)) => b"broken",
            Finding::Text(Verdict::NotJson(_)) => b"not JSON",
            Finding::Sequence(SeqVerdict::Record { verdict, .. }) => match verdict {
                Verdict::Valid(_) => b"not valid",
                Verdict::Broken(_) => b"broken",
                Verdict::NotJson(_) => b"not JSON",
            },
            Finding::NotValid => b"not valid",
        }
    }

    /// Whether a place of it is reported.
    pub fn has_places(&self) -> bool
        ensures { result ≡ has_places self.now }
    {
        match self.warnings() {
            Some(warnings) => !warnings.is_empty(),
            None => self.fault().is_some(),
        }
    }

    /// The places that are to be sought, in their order.
    pub fn places(&self) -> Sites
        ensures right { (text : List ℕ) → AreRight text result.sites }
        ensures paths { (framing : Option Framing) (text : List ℕ) → ArePaths framing text result.sites }
        ensures unfound { NoneFound result.sites }
        ensures unread { IsUnread result }
        ensures all { (place : ℕ) → IsToldPlace self.now place → place < 2 ^ 64 - 1 → Contains (sought result) place }
        ensures only { (place : ℕ) → Contains (sought result) place → IsToldPlace self.now place }
        ensures ordered { IsNonDecreasing (sought result) }
    {
        match self.fault() {
            Some(told) => one_place(told.place),
            None => self.places_of_warnings(),
        }
    }

    /// The places where there is no fault to report.
    fn places_of_warnings(&self) -> Sites
        ensures right { (text : List ℕ) → AreRight text result.sites }
        ensures paths { (framing : Option Framing) (text : List ℕ) → ArePaths framing text result.sites }
        ensures unfound { NoneFound result.sites }
        ensures unread { IsUnread result }
        ensures all { (place : ℕ) → IsPlaceOf None (warnings_of self.now) place → place < 2 ^ 64 - 1 → Contains (sought result) place }
        ensures only { (place : ℕ) → Contains (sought result) place → IsPlaceOf None (warnings_of self.now) place }
        ensures ordered { IsNonDecreasing (sought result) }
    {
        match self.warnings() {
            Some(warnings) => warned_places(&warnings),
            None => Sites::none(),
        }
    }
}

fn one_place(place: u64) -> Sites
    ensures right { (text : List ℕ) → AreRight text result.sites }
    ensures paths { (framing : Option Framing) (text : List ℕ) → ArePaths framing text result.sites }
    ensures unfound { NoneFound result.sites }
    ensures unread { IsUnread result }
    ensures sought { sought result ≡ place ∷ [] }
{
    let mut sites = Sites::none();
    sites.seek(place);
    sites
}

/// The first place of each kind of warning.
fn warned_places(warnings: &Warnings) -> Sites
    ensures right { (text : List ℕ) → AreRight text result.sites }
    ensures paths { (framing : Option Framing) (text : List ℕ) → ArePaths framing text result.sites }
    ensures unfound { NoneFound result.sites }
    ensures unread { IsUnread result }
    ensures all { (place : ℕ) → IsFirstPlace warnings.now place → place < 2 ^ 64 - 1 → Contains (sought result) place }
    ensures only { (place : ℕ) → Contains (sought result) place → IsFirstPlace warnings.now place }
    ensures ordered { IsNonDecreasing (sought result) }
{
    let mut places = first_places(warnings);
    places.sort_unstable();
    sites_at(&places)
}

/// The first place of each kind, and `u64::MAX` where there is no warning of it, which is no place that is sought.
fn first_places(warnings: &Warnings) -> [u64; MOST_PLACES]
    ensures ten { length result ≡ 10 }
    ensures kinds { (k : ℕ) → k < 9 → get_or result k 0 ≡ first_or_none (get_or kinds k W1) warnings.now }
    ensures last { get_or result 9 0 ≡ 2 ^ 64 - 1 }
{
    let mut places = [u64::MAX; MOST_PLACES];
    for i in 0..KINDS.len() {
        places[i] = first_or_none(KINDS[i], warnings);
    }
    places
}

fn first_or_none(kind: Kind, warnings: &Warnings) -> u64
    ensures { result ≡ first_or_none kind warnings.now }
{
    warnings.first(kind).unwrap_or(u64::MAX)
}

fn sites_at(places: &[u64]) -> Sites
    requires { length places.now ≤ 10 }
    ensures right { (text : List ℕ) → AreRight text result.sites }
    ensures paths { (framing : Option Framing) (text : List ℕ) → ArePaths framing text result.sites }
    ensures unfound { NoneFound result.sites }
    ensures unread { IsUnread result }
    ensures sought { sought result ≡ filter is_sought places.now }
{
    let mut sites = Sites::none();
    for place in places {
        seek_if(&mut sites, *place);
    }
    sites
}

fn seek_if(sites: &mut Sites, place: u64)
    ensures right { (text : List ℕ) → AreRight text sites.old.sites → AreRight text sites.new.sites }
    ensures paths { (framing : Option Framing) (text : List ℕ) → ArePaths framing text sites.old.sites → ArePaths framing text sites.new.sites }
    ensures unfound { NoneFound sites.old.sites → NoneFound sites.new.sites }
    ensures unread { IsUnread sites.old → IsUnread sites.new }
    ensures sought { length (sought sites.old) < 10 → sought sites.new ≡ sought sites.old ++ filter is_sought (place ∷ []) }
{
    if place != u64::MAX {
        sites.seek(place);
    }
}

fn fault_in(verdict: Verdict) -> Option<Told>
    ensures { result ≡ fault_in verdict }
{
    match verdict {
        Verdict::Valid(_) => None,
        Verdict::Broken(fault) => Some(Told {
            code: Code::Rule(fault.rule),
            place: fault.place,
        }),
        Verdict::NotJson(fault) => Some(Told {
            code: Code::Cause(fault.cause),
            place: fault.place,
        }),
    }
}

impl<'a> Report<'a> {
    ghost use Rattle.std.specs.Prelude.{◌≡◌};
    ghost use Rattle.geolint_report.specs.Report.{site_at, spot_of, path_from, path_of};

    /// Where a place is, if that was found.
    pub fn spot(&self, place: u64) -> Option<Spot>
        ensures { result ≡ spot_of self.now place }
    {
        match self.sites {
            Some(sites) => sites.at(place).map(|site| site.spot),
            None => None,
        }
    }

    /// The path of the value at a place: none for a text that is refused, which need not have one there.
    pub fn path(&self, told: &Told) -> Option<Path>
        ensures { result ≡ path_of self.now told.now }
    {
        match told.code {
            Code::Cause(_) => None,
            _ => self.path_at(told.place),
        }
    }

    fn path_at(&self, place: u64) -> Option<Path>
        ensures { result ≡ path_from (site_at place self.now.sites) }
    {
        match self.sites {
            Some(sites) => sites.at(place).and_then(|site| site.path),
            None => None,
        }
    }
}

/// What is reported of a kind of warning.
pub fn warning(kind: Kind, warnings: &Warnings) -> Option<(Told, u32)>
    ensures { result ≡ warning_of kind warnings.now }
{
    let told = Told {
        code: Code::Kind(kind),
        place: warnings.first(kind)?,
    };
    Some((told, warnings.count(kind)))
}
