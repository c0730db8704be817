// The actions' names and labels, as data, and the action that a name names.
ghost use Rattle.std.specs.Prelude.{◌≡◌, ◌+◌, ◌≤◌, ◌<◌, length};
ghost use Rattle.text.specs.Over.{Put};
ghost use Rattle.action.specs.Known.{actions};
ghost use Rattle.action.specs.Names.{name_of, label_of, found_of};
ghost use Rattle.action.specs.inner.Texts.{shortest, longest, key_of};

use super::ACTIONS;

// The names in one run, a line for each. A static table of the texts was tried: that it has the name at a number, `returns` of `name_of`, did not close.
static NAMES: [u8; 419] = *b"BasicSynthesis\
    BasicTouch\
    MastersMend\
    Observe\
    WasteNot\
    Veneration\
    StandardTouch\
    GreatStrides\
    Innovation\
    BasicSynthesisTraited\
    WasteNotII\
    ByregotsBlessing\
    MuscleMemory\
    CarefulSynthesis\
    Manipulation\
    PrudentTouch\
    AdvancedTouch\
    Reflect\
    PreparatoryTouch\
    Groundwork\
    DelicateSynthesis\
    TrainedEye\
    CarefulSynthesisTraited\
    GroundworkTraited\
    PrudentSynthesis\
    TrainedFinesse\
    RefinedTouch\
    DelicateSynthesisTraited\
    QuickInnovation\
    ImmaculateMend\
    TrainedPerfection";

// The labels, likewise.
static LABELS: [u8; 418] = *b"Basic Synthesis\
    Basic Touch\
    Master's Mend\
    Observe\
    Waste Not\
    Veneration\
    Standard Touch\
    Great Strides\
    Innovation\
    Basic Synthesis\
    Waste Not II\
    Byregot's Blessing\
    Muscle Memory\
    Careful Synthesis\
    Manipulation\
    Prudent Touch\
    Advanced Touch\
    Reflect\
    Preparatory Touch\
    Groundwork\
    Delicate Synthesis\
    Trained Eye\
    Careful Synthesis\
    Groundwork\
    Prudent Synthesis\
    Trained Finesse\
    Refined Touch\
    Delicate Synthesis\
    Quick Innovation\
    Immaculate Mend\
    Trained Perfection";

// Where each name starts in its run, and where the last one ends.
static NAME_STARTS: [u16; 32] = [
    0, 14, 24, 35, 42, 50, 60, 73, 85, 95, 116, 126, 142, 154, 170, 182, 194, 207, 214, 230, 240,
    257, 267, 290, 307, 323, 337, 349, 373, 388, 402, 419,
];

static LABEL_STARTS: [u16; 32] = [
    0, 15, 26, 39, 46, 55, 65, 79, 92, 102, 117, 129, 147, 160, 177, 189, 202, 216, 223, 240, 250,
    268, 279, 296, 306, 323, 338, 351, 369, 385, 400, 418,
];

fn name_of(n: u8) -> &'static [u8]
    requires { n < actions }
    ensures { result.now ≡ name_of n }
{
    let i = n as usize;
    &NAMES[NAME_STARTS[i] as usize..NAME_STARTS[i + 1] as usize]
}

fn label_of(n: u8) -> &'static [u8]
    requires { n < actions }
    ensures { result.now ≡ label_of n }
{
    let i = n as usize;
    &LABELS[LABEL_STARTS[i] as usize..LABEL_STARTS[i + 1] as usize]
}

pub fn put_name(n: u8, out: &mut [u8], at: usize) -> usize
    requires { (n < actions) × (at + length (name_of n) ≤ length out.old) }
    ensures { Put out.old at (name_of n) result out.new }
{
    text::put(out, at, name_of(n))
}

pub fn put_label(n: u8, out: &mut [u8], at: usize) -> usize
    requires { (n < actions) × (at + length (label_of n) ≤ length out.old) }
    ensures { Put out.old at (label_of n) result out.new }
{
    text::put(out, at, label_of(n))
}

const SHORTEST: usize = 7;

const LONGEST: usize = 24;

// By its length and two letters a name is told from every other: at that key stands its action, and `ACTIONS`, which is none, at every other key.
static CANDIDATES: [u8; 64] = [
    super::PREPARATORY_TOUCH,
    ACTIONS,
    ACTIONS,
    ACTIONS,
    super::OBSERVE,
    ACTIONS,
    ACTIONS,
    super::DELICATE_SYNTHESIS,
    ACTIONS,
    ACTIONS,
    super::TRAINED_EYE,
    ACTIONS,
    ACTIONS,
    ACTIONS,
    super::QUICK_INNOVATION,
    super::WASTE_NOT,
    ACTIONS,
    ACTIONS,
    super::STANDARD_TOUCH,
    super::GREAT_STRIDES,
    super::DELICATE_SYNTHESIS_TRAITED,
    ACTIONS,
    ACTIONS,
    super::TRAINED_PERFECTION,
    super::ADVANCED_TOUCH,
    super::MANIPULATION,
    super::BYREGOTS_BLESSING,
    super::CAREFUL_SYNTHESIS,
    ACTIONS,
    super::GROUNDWORK,
    super::REFINED_TOUCH,
    ACTIONS,
    super::PRUDENT_SYNTHESIS,
    ACTIONS,
    ACTIONS,
    ACTIONS,
    super::BASIC_SYNTHESIS,
    super::WASTE_NOT_II,
    super::MASTERS_MEND,
    ACTIONS,
    super::CAREFUL_SYNTHESIS_TRAITED,
    super::MUSCLE_MEMORY,
    super::GROUNDWORK_TRAITED,
    super::IMMACULATE_MEND,
    super::VENERATION,
    ACTIONS,
    ACTIONS,
    super::INNOVATION,
    ACTIONS,
    super::BASIC_SYNTHESIS_TRAITED,
    ACTIONS,
    ACTIONS,
    super::PRUDENT_TOUCH,
    ACTIONS,
    super::TRAINED_FINESSE,
    ACTIONS,
    super::BASIC_TOUCH,
    ACTIONS,
    ACTIONS,
    ACTIONS,
    ACTIONS,
    ACTIONS,
    ACTIONS,
    super::REFLECT,
];

fn key(word: &[u8]) -> usize
    requires { (shortest ≤ length word.now) × (length word.now ≤ longest) }
    ensures { (result ≡ key_of word.now) × (result < 64) }
{
    (wide(word[0]) + 8 * wide(word[3]) + 11 * word.len()) % 64
}

fn wide(b: u8) -> usize
    ensures { (result ≡ b) × (result < 256) }
{
    b as usize
}

// The action whose name the word is. One comparison at most, with the only name that the word can be.
pub fn from_name(word: &[u8]) -> Option<u8>
    ensures { result ≡ found_of word.now }
{
    if word.len() < SHORTEST || word.len() > LONGEST {
        return None;
    }
    let n = CANDIDATES[key(word)];
    if n < ACTIONS && word == name_of(n) {
        return Some(n);
    }
    None
}
