//! Headers: the first line of a script, which makes its container.
ghost use Rattle.std.specs.Prelude.{ℕ, ◌≡◌, ◌==◌, ◌∷◌, [], Option, Some, IfSome, option_copied};
ghost use Rattle.std.specs.List.{find};
ghost use Rattle.ix_run.specs.Words.{numbers_in, make_named};
ghost use Rattle.ix_run.specs.Headers.{IsStorage, IsStart, header_of, header_text};
ghost use Rattle.ix_run.specs.Headers.{named_container, storage_forms, fixed_capacity, fixed_capacities, up_to_max, container_with_start};
ghost use Rattle.ix_run.specs.inner.LineRest.{words_after};
ghost use Rattle.ix_run.specs.declared.run.grammar.header.Container.TheVariants as container;
ghost use Rattle.ix_run.specs.declared.run.grammar.header.Header.{Header};

use crate::run::devices::MAX_CAPACITY;
use crate::run::grammar::reading::number_in;
use crate::run::grammar::words::{is_word, one_number, split_word};

/// A container that a header may name.
#[derive(Clone, Copy, PartialEq, Eq, Debug)]
pub enum Container {
    /// `queue`: a queue of numbers.
    Queue,
    /// `vec`: a vector of numbers.
    Vector,
    /// `table`: a slot table of numbers.
    SlotTable,
    /// `slot`: a slot map of numbers. The number is the generation of its slots at first, if the header ends by `at G`. Without the
    /// number, that generation is 0.
    SlotMap(Option<u32>),
    /// `flat`: a flat map from numbers to numbers.
    FlatMap,
    /// `text`: a string.
    String,
}

/// A capacity that a header may name for a fixed kind.
#[derive(Clone, Copy, PartialEq, Eq, Debug)]
pub enum FixedCapacity {
    /// 0 elements.
    Zero,
    /// 1 element.
    One,
    /// 3 elements.
    Three,
    /// 8 elements.
    Eight,
}

/// The storage of the elements that a header asks for, and their maximum number.
#[derive(Clone, Copy, PartialEq, Eq, Debug)]
pub enum Storage {
    /// `fixed S`: inline. S is 0, 1, 3 or 8.
    Fixed(FixedCapacity),
    /// `heap N`: in the machine's memory. N is at most [`MAX_CAPACITY`].
    Heap(usize),
    /// `arena N`: in an arena over the machine's memory. N is at most [`MAX_CAPACITY`].
    Arena(usize),
}

/// A header: a container, and its storage.
#[derive(Clone, Copy, PartialEq, Eq, Debug)]
pub struct Header {
    /// The container that is made.
    pub container: Container,
    /// The storage of its elements, and their maximum number.
    pub storage: Storage,
}

/// Returns the header that `line` is, or `None` for any other line. A header is a container and its storage. O(length).
#[tactic(auto, using(crate::proofs::Headers::header_of_text, crate::proofs::Headers::header_of_header_text))]
pub fn read_header(line: &[u8]) -> Option<Header>
    ensures value { result ≡ header_of line.now }
    ensures text { IfSome result (λ header. IsStorage header.storage × IsStart header.container
        × (line.now ≡ header_text header)) }
    ensures each { (header : Header) → IsStorage header.storage → IsStart header.container
        → line.now ≡ header_text header → result ≡ Some header }
{
    header_in(line)
}

fn header_in(line: &[u8]) -> Option<Header>
    ensures { result ≡ header_of line.now }
{
    let (name, rest) = split_word(line);
    let container = container_named(name)?;
    let (name, rest) = split_word(rest?);
    let (number, rest) = split_word(rest?);
    let storage = storage_named(name, number)?;
    let container = started(container, rest)?;
    Some(Header { container, storage })
}

fn container_named(name: &[u8]) -> Option<Container>
    ensures { result ≡ named_container name.now }
{
    if is_word(name, b"queue") {
        return Some(Container::Queue);
    }
    if is_word(name, b"vec") {
        return Some(Container::Vector);
    }
    if is_word(name, b"table") {
        return Some(Container::SlotTable);
    }
    if is_word(name, b"slot") {
        return Some(Container::SlotMap(None));
    }
    if is_word(name, b"flat") {
        return Some(Container::FlatMap);
    }
    if is_word(name, b"text") {
        return Some(Container::String);
    }
    None
}

#[tactic(auto, using(crate::proofs::Headers::fixed_made, crate::proofs::Headers::up_to_max_made))]
fn storage_named(name: &[u8], number: &[u8]) -> Option<Storage>
    ensures { result ≡ make_named storage_forms name.now (numbers_in (number.now ∷ [])) }
{
    let number = number_in(number)?;
    if is_word(name, b"fixed") {
        return Some(Storage::Fixed(fixed_capacity_of(number)?));
    }
    if is_word(name, b"heap") {
        return Some(Storage::Heap(capacity_up_to_max(number)?));
    }
    if is_word(name, b"arena") {
        return Some(Storage::Arena(capacity_up_to_max(number)?));
    }
    None
}

/// Returns the container, with the generation of a slot map's slots at first if the words that are left say it. Returns `None` for
/// any other word that is left.
fn started(container: Container, rest: Option<&[u8]>) -> Option<Container>
    ensures { result ≡ container_with_start container (words_after (option_copied rest.entry)) }
{
    let Some(rest) = rest else {
        return Some(container);
    };
    let (word, rest) = split_word(rest);
    match container {
        Container::SlotMap(_) => starting_at(word, rest),
        Container::Queue
        | Container::Vector
        | Container::SlotTable
        | Container::FlatMap
        | Container::String => { None }
    }
}

/// Returns a slot map with the generation of its slots at first, if the words say it.
fn starting_at(word: &[u8], rest: Option<&[u8]>) -> Option<Container>
    ensures { (start : Option ℕ) → result
        ≡ container_with_start (container.SlotMap start) (word.now ∷ words_after (option_copied rest.entry)) }
{
    if !is_word(word, b"at") {
        return None;
    }
    let generation = one_number(rest)?;
    if generation > u32::MAX as u64 {
        return None;
    }
    Some(Container::SlotMap(Some(generation as u32)))
}

fn fixed_capacity_of(number: u64) -> Option<FixedCapacity>
    ensures { result ≡ find (λ capacity. fixed_capacity capacity == number) fixed_capacities }
{
    match number {
        0 => Some(FixedCapacity::Zero),
        1 => Some(FixedCapacity::One),
        3 => Some(FixedCapacity::Three),
        8 => Some(FixedCapacity::Eight),
        _ => None,
    }
}

fn capacity_up_to_max(number: u64) -> Option<usize>
    ensures { result ≡ up_to_max (λ n. n) (number ∷ []) }
{
    if number > MAX_CAPACITY as u64 {
        return None;
    }
    Some(number as usize)
}
