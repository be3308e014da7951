//! The read table: the elements that are read, under what they stand, and how often they may.

ghost use Rattle.std.specs.Prelude.{◌≡◌, length, map, find, option_map};
ghost use Rattle.pom_model.specs.Spans.{is_named, required_span, required_under, rows_under, span};
ghost use Rattle.pom_model.specs.Table.{found, kind_number, row_view, table};

use crate::element::same;

/// What an element of a POM is read as.
#[derive(Clone, Copy)]
pub(crate) enum Kind {
    Project,
    Parent,
    Modules,
    Properties,
    DependencyManagement,
    Dependencies,
    Dependency,
    Exclusions,
    Exclusion,
    Build,
    Resources,
    TestResources,
    Resource,
    PluginManagement,
    Plugins,
    Plugin,
    Executions,
    Execution,
    Goals,
    Extensions,
    Extension,
    Configuration,
    Profiles,
    Profile,
    ProfileBuild,
    Activation,
    ActivationProperty,
    ActivationFile,
    ActivationOs,
    Leaf,
}

/// How often an element may stand under its parent.
#[derive(Clone, Copy)]
pub(crate) enum Times {
    /// Once, or not at all.
    Optional,
    /// Once, with a text.
    Required,
    /// Once, with a text where there is no `parent`.
    RequiredAlone,
    /// As often as there are items.
    Repeated,
}

/// A line of the read table: under what, the element's name, `*` for any, what it is read as, and how often it may
/// stand.
pub(crate) type Row = (Kind, &'static str, Kind, Times);

/// The read table: what isn't here is skipped, with all that is in it. POM Reference.
const TABLE: [Row; 89] = [
    (Kind::Project, "modelVersion", Kind::Leaf, Times::Optional),
    (Kind::Project, "parent", Kind::Parent, Times::Optional),
    (Kind::Project, "groupId", Kind::Leaf, Times::RequiredAlone),
    (Kind::Project, "version", Kind::Leaf, Times::RequiredAlone),
    (Kind::Project, "artifactId", Kind::Leaf, Times::Required),
    (Kind::Project, "packaging", Kind::Leaf, Times::Optional),
    (Kind::Project, "modules", Kind::Modules, Times::Optional),
    (
        Kind::Project,
        "properties",
        Kind::Properties,
        Times::Optional,
    ),
    (
        Kind::Project,
        "dependencyManagement",
        Kind::DependencyManagement,
        Times::Optional,
    ),
    (
        Kind::Project,
        "dependencies",
        Kind::Dependencies,
        Times::Optional,
    ),
    (Kind::Project, "build", Kind::Build, Times::Optional),
    (Kind::Project, "profiles", Kind::Profiles, Times::Optional),
    (Kind::Parent, "groupId", Kind::Leaf, Times::Required),
    (Kind::Parent, "artifactId", Kind::Leaf, Times::Required),
    (Kind::Parent, "version", Kind::Leaf, Times::Required),
    (Kind::Parent, "relativePath", Kind::Leaf, Times::Optional),
    (Kind::Modules, "module", Kind::Leaf, Times::Repeated),
    (Kind::Properties, "*", Kind::Leaf, Times::Repeated),
    (
        Kind::DependencyManagement,
        "dependencies",
        Kind::Dependencies,
        Times::Optional,
    ),
    (
        Kind::Dependencies,
        "dependency",
        Kind::Dependency,
        Times::Repeated,
    ),
    (Kind::Dependency, "groupId", Kind::Leaf, Times::Required),
    (Kind::Dependency, "artifactId", Kind::Leaf, Times::Required),
    (Kind::Dependency, "version", Kind::Leaf, Times::Optional),
    (Kind::Dependency, "type", Kind::Leaf, Times::Optional),
    (Kind::Dependency, "classifier", Kind::Leaf, Times::Optional),
    (Kind::Dependency, "scope", Kind::Leaf, Times::Optional),
    (Kind::Dependency, "optional", Kind::Leaf, Times::Optional),
    (
        Kind::Dependency,
        "exclusions",
        Kind::Exclusions,
        Times::Optional,
    ),
    (
        Kind::Exclusions,
        "exclusion",
        Kind::Exclusion,
        Times::Repeated,
    ),
    (Kind::Exclusion, "groupId", Kind::Leaf, Times::Optional),
    (Kind::Exclusion, "artifactId", Kind::Leaf, Times::Optional),
    (Kind::Build, "directory", Kind::Leaf, Times::Optional),
    (Kind::Build, "outputDirectory", Kind::Leaf, Times::Optional),
    (
        Kind::Build,
        "testOutputDirectory",
        Kind::Leaf,
        Times::Optional,
    ),
    (Kind::Build, "finalName", Kind::Leaf, Times::Optional),
    (Kind::Build, "sourceDirectory", Kind::Leaf, Times::Optional),
    (
        Kind::Build,
        "testSourceDirectory",
        Kind::Leaf,
        Times::Optional,
    ),
    (Kind::Build, "resources", Kind::Resources, Times::Optional),
    (
        Kind::Build,
        "testResources",
        Kind::TestResources,
        Times::Optional,
    ),
    (Kind::Build, "plugins", Kind::Plugins, Times::Optional),
    (
        Kind::Build,
        "pluginManagement",
        Kind::PluginManagement,
        Times::Optional,
    ),
    (Kind::Build, "extensions", Kind::Extensions, Times::Optional),
    (Kind::Resources, "resource", Kind::Resource, Times::Repeated),
    (
        Kind::TestResources,
        "testResource",
        Kind::Resource,
        Times::Repeated,
    ),
    (Kind::Resource, "directory", Kind::Leaf, Times::Optional),
    (
        Kind::PluginManagement,
        "plugins",
        Kind::Plugins,
        Times::Optional,
    ),
    (Kind::Plugins, "plugin", Kind::Plugin, Times::Repeated),
    (Kind::Plugin, "groupId", Kind::Leaf, Times::Optional),
    (Kind::Plugin, "artifactId", Kind::Leaf, Times::Required),
    (Kind::Plugin, "version", Kind::Leaf, Times::Optional),
    (Kind::Plugin, "inherited", Kind::Leaf, Times::Optional),
    (
        Kind::Plugin,
        "dependencies",
        Kind::Dependencies,
        Times::Optional,
    ),
    (
        Kind::Plugin,
        "executions",
        Kind::Executions,
        Times::Optional,
    ),
    (
        Kind::Plugin,
        "configuration",
        Kind::Configuration,
        Times::Optional,
    ),
    (
        Kind::Executions,
        "execution",
        Kind::Execution,
        Times::Repeated,
    ),
    (Kind::Execution, "id", Kind::Leaf, Times::Optional),
    (Kind::Execution, "phase", Kind::Leaf, Times::Optional),
    (Kind::Execution, "goals", Kind::Goals, Times::Optional),
    (Kind::Execution, "inherited", Kind::Leaf, Times::Optional),
    (
        Kind::Execution,
        "configuration",
        Kind::Configuration,
        Times::Optional,
    ),
    (Kind::Goals, "goal", Kind::Leaf, Times::Repeated),
    (
        Kind::Extensions,
        "extension",
        Kind::Extension,
        Times::Repeated,
    ),
    (Kind::Extension, "groupId", Kind::Leaf, Times::Required),
    (Kind::Extension, "artifactId", Kind::Leaf, Times::Required),
    (Kind::Extension, "version", Kind::Leaf, Times::Required),
    (
        Kind::Configuration,
        "*",
        Kind::Configuration,
        Times::Repeated,
    ),
    (Kind::Profiles, "profile", Kind::Profile, Times::Repeated),
    (Kind::Profile, "id", Kind::Leaf, Times::Optional),
    (
        Kind::Profile,
        "activation",
        Kind::Activation,
        Times::Optional,
    ),
    (Kind::Profile, "modules", Kind::Modules, Times::Optional),
    (
        Kind::Profile,
        "properties",
        Kind::Properties,
        Times::Optional,
    ),
    (
        Kind::Profile,
        "dependencyManagement",
        Kind::DependencyManagement,
        Times::Optional,
    ),
    (
        Kind::Profile,
        "dependencies",
        Kind::Dependencies,
        Times::Optional,
    ),
    (Kind::Profile, "build", Kind::ProfileBuild, Times::Optional),
    (
        Kind::ProfileBuild,
        "plugins",
        Kind::Plugins,
        Times::Optional,
    ),
    (
        Kind::ProfileBuild,
        "pluginManagement",
        Kind::PluginManagement,
        Times::Optional,
    ),
    (
        Kind::Activation,
        "activeByDefault",
        Kind::Leaf,
        Times::Optional,
    ),
    (
        Kind::Activation,
        "property",
        Kind::ActivationProperty,
        Times::Optional,
    ),
    (
        Kind::Activation,
        "file",
        Kind::ActivationFile,
        Times::Optional,
    ),
    (Kind::Activation, "jdk", Kind::Leaf, Times::Optional),
    (Kind::Activation, "os", Kind::ActivationOs, Times::Optional),
    (
        Kind::ActivationProperty,
        "name",
        Kind::Leaf,
        Times::Optional,
    ),
    (
        Kind::ActivationProperty,
        "value",
        Kind::Leaf,
        Times::Optional,
    ),
    (Kind::ActivationFile, "exists", Kind::Leaf, Times::Optional),
    (Kind::ActivationFile, "missing", Kind::Leaf, Times::Optional),
    (Kind::ActivationOs, "name", Kind::Leaf, Times::Optional),
    (Kind::ActivationOs, "family", Kind::Leaf, Times::Optional),
    (Kind::ActivationOs, "arch", Kind::Leaf, Times::Optional),
    (Kind::ActivationOs, "version", Kind::Leaf, Times::Optional),
];

impl Kind {
    /// Its place in the list of kinds.
    #[tactic(auto, unfolding(crate::specs::Table::kind_number))]
    pub(crate) fn number(self) -> u8
        ensures { result ≡ kind_number self }
    {
        self as u8
    }
}

// Where the lines of a kind of element stand in the table, and where they end.
fn span(kind: Kind) -> (usize, usize)
    ensures { result ≡ span kind }
{
    match kind {
        Kind::Project => (0, 12),
        Kind::Parent => (12, 16),
        Kind::Modules => (16, 17),
        Kind::Properties => (17, 18),
        Kind::DependencyManagement => (18, 19),
        Kind::Dependencies => (19, 20),
        Kind::Dependency => (20, 28),
        Kind::Exclusions => (28, 29),
        Kind::Exclusion => (29, 31),
        Kind::Build => (31, 42),
        Kind::Resources => (42, 43),
        Kind::TestResources => (43, 44),
        Kind::Resource => (44, 45),
        Kind::PluginManagement => (45, 46),
        Kind::Plugins => (46, 47),
        Kind::Plugin => (47, 54),
        Kind::Executions => (54, 55),
        Kind::Execution => (55, 60),
        Kind::Goals => (60, 61),
        Kind::Extensions => (61, 62),
        Kind::Extension => (62, 65),
        Kind::Configuration => (65, 66),
        Kind::Profiles => (66, 67),
        Kind::Profile => (67, 74),
        Kind::ProfileBuild => (74, 76),
        Kind::Activation => (76, 81),
        Kind::ActivationProperty => (81, 83),
        Kind::ActivationFile => (83, 85),
        Kind::ActivationOs => (85, 89),
        Kind::Leaf => (89, 89),
    }
}

// All lines of the table.
#[tactic(auto, unfolding(crate::specs::Table::table))]
fn rows() -> &'static [Row]
    ensures rows { map row_view result.now ≡ table }
    ensures len { length result.now ≡ 89 }
{
    TABLE.as_slice()
}

/// The lines of the table under a kind of element, in its order. Constant time.
#[tactic(auto, using(crate::proofs::Spans::span_ordered, crate::proofs::Spans::span_low))]
pub(crate) fn rows_under(kind: Kind) -> &'static [Row]
    ensures { map row_view result.now ≡ rows_under kind }
{
    let (from, to) = span(kind);
    &rows()[from..to]
}

// Where those of them stand whose elements may have to be there: they stand side by side.
fn required_span(kind: Kind) -> (usize, usize)
    ensures { result ≡ required_span kind }
{
    match kind {
        Kind::Project => (2, 5),
        Kind::Parent => (12, 15),
        Kind::Dependency => (20, 22),
        Kind::Plugin => (48, 49),
        Kind::Extension => (62, 65),
        _ => (0, 0),
    }
}

/// The lines under a kind of element whose elements may have to be there, in the table's order. Constant time.
#[tactic(auto, using(crate::proofs::Spans::required_ordered, crate::proofs::Spans::required_low))]
pub(crate) fn required_under(kind: Kind) -> &'static [Row]
    ensures { map row_view result.now ≡ required_under kind }
{
    let (from, to) = required_span(kind);
    &rows()[from..to]
}

// What the first of these lines says of an element of this name.
fn found_among(rows: &[Row], name: &str) -> Option<(Kind, Times)>
    ensures { result
        ≡ option_map (λ r. (r.inner, r.times)) (find (is_named name.now) (map row_view rows.now)) }
{
    for (_, element, inner, times) in rows {
        if same(element, "*") || same(element, name) {
            return Some((*inner, *times));
        }
    }
    None
}

/// What the table says of an element, by what it stands in and its name. Costs comparing names.
pub(crate) fn found(under: Kind, name: &str) -> Option<(Kind, Times)>
    ensures { result ≡ found under name.now }
{
    found_among(rows_under(under), name)
}
