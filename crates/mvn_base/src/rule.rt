//! The rules that a project may break, with the number and the name that are printed.

ghost use Rattle.std.specs.Prelude.{◌≡◌};

use std::fmt;

/// Why a project is refused. The number and the name are printed.
#[derive(Clone, Copy, Debug, PartialEq, Eq)]
pub enum Rule {
    /// A limit is passed.
    TooLarge,
    /// Unknown encoding, or a byte that it doesn't allow.
    Encoding,
    /// No POM text.
    NotPomText,
    /// `<!DOCTYPE` before the root.
    Doctype,
    /// The root isn't `project`.
    RootNotProject,
    /// An element that may stand once stands again.
    RepeatedElement,
    /// `modelVersion` is missing or isn't `4.0.0`.
    ModelVersion,
    /// A required element is missing or empty.
    MissingField,
    /// A coordinate isn't valid.
    BadName,
    /// A parent's packaging isn't `pom`.
    ParentPackaging,
    /// No such parent.
    ParentNotFound,
    /// The parent stands in the lineage already.
    ParentCycle,
    /// The lineage has more than 32 POMs.
    LineageTooLong,
    /// Modules, and a packaging other than `pom`.
    AggregatorPackaging,
    /// No POM at a module's path.
    ModuleNotFound,
    /// A POM met again, or two modules of one coordinate.
    DuplicateProject,
    /// An expression leads back to itself.
    ExpressionCycle,
    /// An unknown name in a field that must be known.
    Unresolved,
    /// A dependency or an import without a version.
    VersionMissing,
    /// No version requirement, or a range where none may stand.
    BadRange,
    /// No scope of Maven's.
    BadScope,
    /// Scope `system` in a project's POM.
    SystemScope,
    /// An import whose type isn't `pom`.
    ImportNotPom,
    /// An imported POM is being built already.
    ImportCycle,
    /// No such imported POM.
    ImportNotFound,
    /// `combine.children` or `combine.self` in a configuration.
    CombineAttribute,
    /// No available version is admitted.
    EmptyRange,
    /// A range doesn't admit the winner.
    RangeConflict,
    /// A limit of the dependency graph is passed.
    GraphTooLarge,
    /// No module can be placed.
    ReactorCycle,
    /// An unknown packaging.
    UnknownPackaging,
    /// An expression in a parent's coordinate.
    ParentExpression,
}

impl Rule {
    ghost use Rattle.mvn_base.specs.Rule.{rule_number, rule_name};

    /// The number that is printed, from 1.
    #[tactic(auto, unfolding(crate::specs::Rule::rule_number))]
    pub fn number(self) -> u8
        ensures { result ≡ rule_number self }
    {
        self as u8 + 1
    }

    /// The name that is printed.
    #[tactic(auto, unfolding(crate::specs::Rule::rule_name))]
    pub fn name(self) -> &'static str
        ensures { result.now ≡ rule_name self }
    {
        match self {
            Rule::TooLarge => "TooLarge",
            Rule::Encoding => "Encoding",
            Rule::NotPomText => "NotPomText",
            Rule::Doctype => "Doctype",
            Rule::RootNotProject => "RootNotProject",
            Rule::RepeatedElement => "RepeatedElement",
            Rule::ModelVersion => "ModelVersion",
            Rule::MissingField => "MissingField",
            Rule::BadName => "BadName",
            Rule::ParentPackaging => "ParentPackaging",
            Rule::ParentNotFound => "ParentNotFound",
            Rule::ParentCycle => "ParentCycle",
            Rule::LineageTooLong => "LineageTooLong",
            Rule::AggregatorPackaging => "AggregatorPackaging",
            Rule::ModuleNotFound => "ModuleNotFound",
            Rule::DuplicateProject => "DuplicateProject",
            Rule::ExpressionCycle => "ExpressionCycle",
            Rule::Unresolved => "Unresolved",
            Rule::VersionMissing => "VersionMissing",
            Rule::BadRange => "BadRange",
            Rule::BadScope => "BadScope",
            Rule::SystemScope => "SystemScope",
            Rule::ImportNotPom => "ImportNotPom",
            Rule::ImportCycle => "ImportCycle",
            Rule::ImportNotFound => "ImportNotFound",
            Rule::CombineAttribute => "CombineAttribute",
            Rule::EmptyRange => "EmptyRange",
            Rule::RangeConflict => "RangeConflict",
            Rule::GraphTooLarge => "GraphTooLarge",
            Rule::ReactorCycle => "ReactorCycle",
            Rule::UnknownPackaging => "UnknownPackaging",
            Rule::ParentExpression => "ParentExpression",
        }
    }
}

impl fmt::Display for Rule {
    ghost use Rattle.std.specs.Prelude.{Some};
    ghost use Rattle.mvn_base.specs.Rule.{rule_text};

    ghost output = { λ rule. Some (rule_text rule) };

    #[tactic(auto, unfolding(crate::specs::Rule::rule_text))]
    fn fmt<W: fmt::Write>(&self, f: &mut fmt::Formatter<W>) -> fmt::Result {
        let number = self.number();
        let name = self.name();
        write!(f, "{number} {name}")
    }
}
