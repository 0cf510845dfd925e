//! Bases of states, by the minimal sets of what the second player can reach.

ghost use Rattle.std.specs.Prelude.{◌≡◌, ◌≢◌, ◌+◌, ◌^◌, ◌<◌, ◌⊎◌, ℕ, false, true, IfNone, IfOk, IfSome, IsSome, None};
ghost use Rattle.std.specs.Prelude.{Some, length};
ghost use Rattle.std.specs.List.{Contains};
ghost use Rattle.ps_diagram.specs.Leaves.{chosen};
ghost use Rattle.ps_diagram.specs.Reached.{LeadsToLeaf};
ghost use Rattle.ps_diagram.specs.Table.{IsNode, Keeps, leaf_of};
ghost use Rattle.ps_machine.specs.Boards.{Board, IsClassLetter, IsFirstLetter, IsListOf};
ghost use Rattle.ps_machine.specs.Numbering.{StandsAt};
ghost use Rattle.ps_machine.specs.declared.key.Key.TheVariants.{First};
ghost use Rattle.ps_basis.specs.Bases.{IsBasis, IsMinimalLetter, ReachesNoMore};
ghost use Rattle.ps_brief.specs.ArenaGames.{AreBases, letters_at};
ghost use Rattle.ps_brief.specs.Listings.{IsListing, listed_keys};
ghost use Rattle.ps_brief.specs.MinimalLetters.{HasMinimalLetters, HasRichState};
ghost use Rattle.ps_brief.specs.Settings.{Fits, board_in};
ghost use Rattle.ps_brief.specs.Targets.{AreTargetsOf, IsTarget};
ghost use Rattle.ps_brief.specs.Inner.Covering.{AreAlike, AreBelow, HasFound, IsApart, IsCovered, IsCovering, IsLow};
ghost use Rattle.ps_brief.specs.Inner.Covering.{IsMarked, IsWithout};
ghost use Rattle.ps_brief.specs.Inner.Finding.{IsFinding};
ghost use Rattle.ps_brief.specs.declared.setting.Setting.{Setting};

use crate::listing::Listing;
use crate::setting::Setting;
use crate::steps::{Target, Targets};
use indexmap::IndexMap;
use ps_diagram::{Node, Store};
use std::alloc::{AllocError, Global};

/// A basis of a state.
#[derive(Drop)]
pub struct Basis {
    /// Its letters, in their order.
    pub letters: Vec<u64>,
}

/// Bases of some states.
#[derive(Drop)]
pub struct Bases {
    /// The basis of each state.
    pub of: IndexMap<u32, Basis>,
}

/// Finds a basis of each state of a listing, or `None` if one of them has at least `most` minimal letters. Fails if out
/// of memory.
pub fn bases_of(
    alloc: Global,
    setting: &Setting<'_>,
    store: &mut Store,
    listing: &Listing,
    most: usize,
) -> Result<Option<Bases>, AllocError>
    requires { IsListing setting.now store.old listing.now }
    ensures keeps { Keeps store.old store.new }
    ensures bases { IfOk result (λ found. IfSome found (AreBases setting.now listing.now)) }
    ensures none_only { IfOk result (λ found. IfNone found (HasRichState setting.now listing.now most)) }
{
    let mut bases = Bases {
        of: IndexMap::new(alloc),
    };
    for step in listing.entered.as_slice() {
        let is_found = bases.find(alloc, setting, store, listing, step.state, most)?;
        if !is_found {
            return Ok(None);
        }
    }
    Ok(Some(bases))
}

impl Bases {
    /// The letters of a state's basis; none if the state has none here.
    pub fn letters(&self, state: u32) -> &[u64]
        ensures { result.now ≡ letters_at self.now state }
    {
        match self.of.get(&state) {
            Some(basis) => &basis.letters,
            None => &[],
        }
    }

    /// Finds a basis of a listed state that has none yet. False if the state has at least `most` minimal letters.
    fn find(
        &mut self,
        alloc: Global,
        setting: &Setting<'_>,
        store: &mut Store,
        listing: &Listing,
        state: u32,
        most: usize,
    ) -> Result<bool, AllocError>
        requires listing { IsListing setting.now store.old listing.now }
        requires listed { (p : ℕ) × Contains (listed_keys listing.now) (First state p) }
        ensures keeps { Keeps store.old store.new }
        ensures found { IfOk result (λ found. found ≡ true → (n p : ℕ) →
            IsFinding setting.now listing.now self.old n → StandsAt (listed_keys listing.now) n (First state p) →
            IsFinding setting.now listing.now self.new (n + 1)) }
        ensures false_only { IfOk result (λ found. found ≡ false →
            HasMinimalLetters (board_in setting.now) state most) }
    {
        let is_known = self.of.contains_key(&state);
        if is_known {
            return Ok(true);
        }
        let found = basis_of(alloc, setting, store, listing.of(state), most)?;
        match found {
            Some(basis) => {
                self.of.insert(state, basis)?;
                Ok(true)
            }
            None => Ok(false),
        }
    }
}

/// Finds a basis of a state with less than `most` letters, or `None` if the state has at least `most` minimal letters.
/// Fails if out of memory.
///
/// While a letter is not covered, the search excludes as many targets as possible, first those that cannot be reached
/// behind this letter. The least letter behind which no excluded target can be reached is minimal, and in the basis. It
/// covers the letters behind which all targets can be reached that can be reached behind it.
pub fn basis_of(
    alloc: Global,
    setting: &Setting<'_>,
    store: &mut Store,
    targets: &Targets,
    most: usize,
) -> Result<Option<Basis>, AllocError>
    requires fits { Fits setting.now store.old }
    requires targets { AreTargetsOf setting.now store.old targets.now }
    ensures keeps { Keeps store.old store.new }
    ensures basis { IfOk result
        (λ found. IfSome found (λ basis. IsBasis (board_in setting.now) targets.now.state basis.letters.items)) }
    ensures none_only { IfOk result
        (λ found. IfNone found (HasMinimalLetters (board_in setting.now) targets.now.state most)) }
{
    let mut cover = Cover::new(store)?;
    for _round in 0..most {
        let Some(letter) = store.path_to(cover.uncovered, 1)? else {
            let basis = letters_of(alloc, store, cover.basis)?;
            return Ok(Some(basis));
        };
        let next = extended(setting, store, targets, cover, letter)?;
        cover = next;
    }
    Ok(None)
}

/// A basis in the making.
#[derive(Clone, Copy)]
struct Cover {
    /// The letters that are not covered, with the leaf 1.
    uncovered: Node,
    /// The letters of the basis, each as a leaf at itself.
    basis: Node,
}

impl Cover {
    /// All letters are uncovered.
    fn new(store: &mut Store) -> Result<Cover, AllocError>
        ensures keeps { Keeps store.old store.new }
        ensures covering { IfOk result (λ cover. (board : Board) (q : ℕ) →
            IsCovering board store.new q cover.uncovered cover.basis) }
        ensures found { IfOk result (λ cover. (setting : Setting) (q : ℕ) →
            HasFound setting store.new q cover.uncovered 0) }
    {
        let uncovered = store.leaf(1)?;
        let basis = store.none()?;
        Ok(Cover { uncovered, basis })
    }
}

/// The cover with one more letter, which covers the given one.
fn extended(
    setting: &Setting<'_>,
    store: &mut Store,
    targets: &Targets,
    cover: Cover,
    letter: u64,
) -> Result<Cover, AllocError>
    requires fits { Fits setting.now store.old }
    requires targets { AreTargetsOf setting.now store.old targets.now }
    requires covering { IsCovering (board_in setting.now) store.old targets.now.state cover.uncovered cover.basis }
    requires letter { LeadsToLeaf store.old cover.uncovered 1 letter }
    requires first { IsFirstLetter (board_in setting.now) letter }
    ensures keeps { Keeps store.old store.new }
    ensures covering { IfOk result (λ made. IsCovering (board_in setting.now) store.new targets.now.state made.uncovered
        made.basis) }
    ensures found { IfOk result (λ made. (n : ℕ) → HasFound setting.now store.old targets.now.state cover.uncovered n →
        HasFound setting.now store.new targets.now.state made.uncovered (n + 1)) }
{
    let low = excluded(setting, store, targets, letter)?;
    let least = least_low(setting, store, targets, low)?;
    let basis = marked(store, cover.basis, least)?;
    let uncovered = left_uncovered(setting, store, targets, cover.uncovered, least)?;
    Ok(Cover { uncovered, basis })
}

/// The letters behind which no target can be reached that cannot be reached behind the given letter.
fn excluded(
    setting: &Setting<'_>,
    store: &mut Store,
    targets: &Targets,
    letter: u64,
) -> Result<Node, AllocError>
    requires targets { AreTargetsOf setting.now store.old targets.now }
    requires first { IsFirstLetter (board_in setting.now) letter }
    ensures keeps { Keeps store.old store.new }
    ensures low { IfOk result
        (IsLow (board_in setting.now) store.new targets.now.state setting.now.second) }
    ensures letter { IfOk result (λ low. leaf_of store.new low letter ≡ Some 1) }
    ensures below { IfOk result (λ low. (x : ℕ) → IsFirstLetter (board_in setting.now) x →
        IsSome (leaf_of store.new low x) → ReachesNoMore (board_in setting.now) targets.now.state x letter) }
{
    let mut low = store.leaf(1)?;
    for place in 0..targets.list.len() {
        let next = narrowed(setting, store, targets, place, low, letter)?;
        low = next;
    }
    Ok(low)
}

/// The letters of `low`; if a target cannot be reached behind the given letter, those behind which it cannot either.
fn narrowed(
    setting: &Setting<'_>,
    store: &mut Store,
    targets: &Targets,
    place: usize,
    low: Node,
    letter: u64,
) -> Result<Node, AllocError>
    requires targets { AreTargetsOf setting.now store.old targets.now }
    requires place { place < length targets.now.list.items }
    requires low { IsLow (board_in setting.now) store.old targets.now.state setting.now.second low }
    requires letter { leaf_of store.old low letter ≡ Some 1 }
    requires first { IsFirstLetter (board_in setting.now) letter }
    requires below { AreBelow setting.now store.old targets.now.state targets.now.list.items place letter low }
    ensures keeps { Keeps store.old store.new }
    ensures low { IfOk result
        (IsLow (board_in setting.now) store.new targets.now.state setting.now.second) }
    ensures letter { IfOk result (λ made. leaf_of store.new made letter ≡ Some 1) }
    ensures below { IfOk result
        (AreBelow setting.now store.new targets.now.state targets.now.list.items (place + 1) letter) }
{
    let target = targets.list[place];
    match store.eval(target.behind, letter) {
        Some(_) => Ok(low),
        None => without(setting, store, targets, target, low),
    }
}

/// The letters of `low` behind which a target cannot be reached.
fn without(
    setting: &Setting<'_>,
    store: &mut Store,
    targets: &Targets,
    target: Target,
    low: Node,
) -> Result<Node, AllocError>
    requires target { IsTarget setting.now store.old targets.now.state target }
    requires low { IsLow (board_in setting.now) store.old targets.now.state setting.now.second low }
    ensures keeps { Keeps store.old store.new }
    ensures low { IfOk result
        (IsLow (board_in setting.now) store.new targets.now.state setting.now.second) }
    ensures stays { IfOk result (λ made. (x leaf : ℕ) → leaf_of store.old target.behind x ≡ None →
        leaf_of store.old low x ≡ Some leaf → leaf_of store.new made x ≡ Some leaf) }
    ensures without { IfOk result (IsWithout setting.now store.old store.new targets.now.state target low) }
{
    let none = store.none()?;
    store.choose(target.behind, none, low)
}

/// The least letter of some letters of `low`: those behind which targets cannot be reached that are excluded one after
/// another, as long as a letter remains.
fn least_low(
    setting: &Setting<'_>,
    store: &mut Store,
    targets: &Targets,
    low: Node,
) -> Result<u64, AllocError>
    requires fits { Fits setting.now store.old }
    requires targets { AreTargetsOf setting.now store.old targets.now }
    requires low { IsLow (board_in setting.now) store.old targets.now.state setting.now.second low }
    requires some { (x : ℕ) × LeadsToLeaf store.old low 1 x }
    ensures keeps { Keeps store.old store.new }
    ensures class { IfOk result (IsClassLetter (board_in setting.now) targets.now.state) }
    ensures minimal { IfOk result (IsMinimalLetter (board_in setting.now) targets.now.state) }
    ensures within { IfOk result (λ least. IsSome (leaf_of store.old low least)) }
{
    let mut low = low;
    for place in 0..targets.list.len() {
        let next = lowered(setting, store, targets, place, low)?;
        low = next;
    }
    let found = store.path_to(low, 1)?;
    match found {
        Some(least) => Ok(least),
        None => unreachable!(),
    }
}

/// The letters of `low` behind which a target cannot be reached, or `low` if there are none.
fn lowered(
    setting: &Setting<'_>,
    store: &mut Store,
    targets: &Targets,
    place: usize,
    low: Node,
) -> Result<Node, AllocError>
    requires fits { Fits setting.now store.old }
    requires targets { AreTargetsOf setting.now store.old targets.now }
    requires place { place < length targets.now.list.items }
    requires low { IsLow (board_in setting.now) store.old targets.now.state setting.now.second low }
    requires some { (x : ℕ) × LeadsToLeaf store.old low 1 x }
    requires alike { AreAlike setting.now store.old targets.now.state targets.now.list.items place low }
    ensures keeps { Keeps store.old store.new }
    ensures low { IfOk result
        (IsLow (board_in setting.now) store.new targets.now.state setting.now.second) }
    ensures some { IfOk result (λ made. (x : ℕ) × LeadsToLeaf store.new made 1 x) }
    ensures within { IfOk result (λ made. (x : ℕ) → IsSome (leaf_of store.new made x) →
        IsSome (leaf_of store.old low x)) }
    ensures alike { IfOk result
        (AreAlike setting.now store.new targets.now.state targets.now.list.items (place + 1)) }
{
    let target = targets.list[place];
    let lower = without(setting, store, targets, target, low)?;
    let found = store.path_to(lower, 1)?;
    match found {
        Some(_least) => Ok(lower),
        None => Ok(low),
    }
}

/// The diagram that also has the letter as a leaf at itself.
fn marked(store: &mut Store, basis: Node, letter: u64) -> Result<Node, AllocError>
    requires basis { IsNode store.old basis }
    requires within { letter < 2 ^ store.old.propositions }
    ensures keeps { Keeps store.old store.new }
    ensures held { IfOk result (IsNode store.new) }
    ensures here { IfOk result (λ made. leaf_of store.new made letter ≡ Some letter) }
    ensures others { IfOk result (λ made. (x : ℕ) → x < 2 ^ store.old.propositions → x ≢ letter →
        leaf_of store.new made x ≡ leaf_of store.old basis x) }
{
    let here = store.of_letter(letter)?;
    let leaf = store.leaf(letter)?;
    store.choose(here, leaf, basis)
}

/// What remains uncovered if the least letter of its class covers letters.
fn left_uncovered(
    setting: &Setting<'_>,
    store: &mut Store,
    targets: &Targets,
    uncovered: Node,
    letter: u64,
) -> Result<Node, AllocError>
    requires targets { AreTargetsOf setting.now store.old targets.now }
    requires uncovered { IsNode store.old uncovered }
    requires letter { IsFirstLetter (board_in setting.now) letter }
    ensures keeps { Keeps store.old store.new }
    ensures held { IfOk result (IsNode store.new) }
    ensures left { IfOk result (λ left. (z : ℕ) → IsFirstLetter (board_in setting.now) z →
        (leaf_of store.new left z ≡ leaf_of store.old uncovered z) ⊎
        ReachesNoMore (board_in setting.now) targets.now.state letter z) }
    ensures apart { IfOk result
        (IsApart setting.now store.old store.new targets.now.state letter uncovered) }
{
    let mut covered = store.leaf(1)?;
    for place in 0..targets.list.len() {
        let next = covering(setting, store, targets, place, covered, letter)?;
        covered = next;
    }
    let none = store.none()?;
    store.choose(covered, none, uncovered)
}

/// The covered letters; if a target can be reached behind the given letter, those behind which it can be reached too.
fn covering(
    setting: &Setting<'_>,
    store: &mut Store,
    targets: &Targets,
    place: usize,
    covered: Node,
    letter: u64,
) -> Result<Node, AllocError>
    requires targets { AreTargetsOf setting.now store.old targets.now }
    requires place { place < length targets.now.list.items }
    requires letter { IsFirstLetter (board_in setting.now) letter }
    requires covered { IsCovered setting.now store.old targets.now.state targets.now.list.items place letter covered }
    ensures keeps { Keeps store.old store.new }
    ensures covered { IfOk result
        (IsCovered setting.now store.new targets.now.state targets.now.list.items (place + 1) letter) }
{
    let target = targets.list[place];
    match store.eval(target.behind, letter) {
        Some(_) => within(store, target.behind, covered),
        None => Ok(covered),
    }
}

/// The letters of `covered` at which `behind` has a leaf.
fn within(store: &mut Store, behind: Node, covered: Node) -> Result<Node, AllocError>
    requires behind { IsNode store.old behind }
    requires covered { IsNode store.old covered }
    ensures keeps { Keeps store.old store.new }
    ensures held { IfOk result (IsNode store.new) }
    ensures leaf { IfOk result (λ made. (x : ℕ) → leaf_of store.new made x ≡
        chosen (leaf_of store.old behind x) (leaf_of store.old covered x) None) }
{
    let none = store.none()?;
    store.choose(behind, covered, none)
}

/// The marked letters, in their order.
fn letters_of(alloc: Global, store: &Store, basis: Node) -> Result<Basis, AllocError>
    requires held { IsNode store.now basis }
    requires leaves { (x leaf : ℕ) → x < 2 ^ store.now.propositions → leaf_of store.now basis x ≡ Some leaf →
        leaf ≡ x }
    ensures { IfOk result (λ made. IsListOf (IsMarked store.now basis) made.letters.items) }
{
    let leaves = store.leaves(basis)?;
    let mut letters = Vec::new(alloc);
    for (_, letter) in &leaves {
        letters.push(*letter)?;
    }
    Ok(Basis { letters })
}
