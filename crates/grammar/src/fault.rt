//! What is wrong with a row of words, layer by layer: a layer's fault keeps that of the layer below unchanged.
ghost use Rattle.std.specs.Prelude.{◌≡◌, Some};
ghost use Rattle.grammar.specs.Faults.{wrong, word_report, reference_report, work_report, form_report, layer_name, place_text};
ghost use Rattle.grammar.specs.declared.fault.FormFault.TheVariants.{Work as ofWork};
ghost use Rattle.grammar.specs.declared.fault.ReferenceFault.TheVariants.{Words as ofWords};
ghost use Rattle.grammar.specs.declared.fault.WorkFault.TheVariants.{References as ofReferences};

use std::fmt;

/// The four layers of the check, in the order in which they ask.
#[derive(Clone, Copy, PartialEq, Eq, Debug)]
pub enum Layer {
    Words,
    References,
    Work,
    Form,
}

/// Where a fault lies: the number of its question, the layer that asks it, and the word at fault.
#[derive(Clone, Copy, PartialEq, Eq, Debug)]
pub struct Place {
    pub number: u8,
    pub layer: Layer,
    pub word: usize,
}

impl fmt::Display for Layer {
    ghost output = { λ l. Some (layer_name l) };

    fn fmt<W: fmt::Write>(&self, f: &mut fmt::Formatter<W>) -> fmt::Result {
        f.write_str(match self {
            Layer::Words => "words",
            Layer::References => "references",
            Layer::Work => "work",
            Layer::Form => "form",
        })
    }
}

impl fmt::Display for Place {
    ghost output = { λ p. Some (place_text p) };

    fn fmt<W: fmt::Write>(&self, f: &mut fmt::Formatter<W>) -> fmt::Result {
        write!(
            f,
            "refused {} layer {} word {}",
            self.number, self.layer, self.word
        )
    }
}

/// The words by themselves.
#[derive(Clone, Copy, PartialEq, Eq, Debug)]
pub enum WordFault {
    /// There are fewer than 3 words, or more than 1,156.
    Count,
    /// The first word is no header, or leaves no room or too much for the sets.
    Header,
    /// The lowest word that has not its part's kind, zeros and ranges.
    Word { word: usize },
}

/// What words name.
#[derive(Clone, Copy, PartialEq, Eq, Debug)]
pub enum ReferenceFault {
    Words(WordFault),
    /// The lowest word that names something that is not there, or an operand that is not lower.
    Missing { word: usize },
}

/// The memory lent to the check.
#[derive(Clone, Copy, PartialEq, Eq, Debug)]
pub enum WorkFault {
    References(ReferenceFault),
    /// Fewer work words than twice the number of expressions.
    Short,
}

/// The grammar's form.
#[derive(Clone, Copy, PartialEq, Eq, Debug)]
pub enum FormFault {
    Work(WorkFault),
    /// The word of the lowest repetition whose part may match nothing.
    EmptyRepetition { word: usize },
    /// The word of the lowest expression where an endless walk to leading parts can start.
    EndlessWalk { word: usize },
}

// Each `From` is written by hand: clauses say which fault a `?` makes, and a derived one has no contract.
impl From<WordFault> for ReferenceFault {
    ghost from_gives = { λ f r. r ≡ ofWords f };

    fn from(fault: WordFault) -> ReferenceFault {
        ReferenceFault::Words(fault)
    }
}

impl From<ReferenceFault> for WorkFault {
    ghost from_gives = { λ f r. r ≡ ofReferences f };

    fn from(fault: ReferenceFault) -> WorkFault {
        WorkFault::References(fault)
    }
}

impl From<WorkFault> for FormFault {
    ghost from_gives = { λ f r. r ≡ ofWork f };

    fn from(fault: WorkFault) -> FormFault {
        FormFault::Work(fault)
    }
}

/// A place, in one line.
fn at(number: u8, layer: Layer, word: usize) -> Place
    ensures { result ≡ record { number = number; layer = layer; word = word } }
{
    Place {
        number,
        layer,
        word,
    }
}

// Here and below: one method a layer, since each layer has cases of its own and asks the layer below for the others.
impl WordFault {
    /// The number, layer and word of the fault.
    fn place(self) -> Place
        ensures { word_report self ≡ wrong result.number result.layer result.word }
    {
        match self {
            WordFault::Count => at(1, Layer::Words, 0),
            WordFault::Header => at(2, Layer::Words, 0),
            WordFault::Word { word } => at(3, Layer::Words, word),
        }
    }
}

impl ReferenceFault {
    /// The number, layer and word of the fault.
    fn place(self) -> Place
        ensures { reference_report self ≡ wrong result.number result.layer result.word }
    {
        match self {
            ReferenceFault::Words(fault) => fault.place(),
            ReferenceFault::Missing { word } => at(4, Layer::References, word),
        }
    }
}

impl WorkFault {
    /// The number, layer and word of the fault.
    fn place(self) -> Place
        ensures { work_report self ≡ wrong result.number result.layer result.word }
    {
        match self {
            WorkFault::References(fault) => fault.place(),
            WorkFault::Short => at(5, Layer::Work, 0),
        }
    }
}

impl FormFault {
    /// The number, layer and word of the fault.
    pub fn place(self) -> Place
        ensures { form_report self ≡ wrong result.number result.layer result.word }
    {
        match self {
            FormFault::Work(fault) => fault.place(),
            FormFault::EmptyRepetition { word } => at(6, Layer::Form, word),
            FormFault::EndlessWalk { word } => at(7, Layer::Form, word),
        }
    }
}
