//! Which goals a packaging binds. Introduction to the Build Lifecycle, "Built-in Lifecycle Bindings".

ghost use Rattle.std.specs.Prelude.{◌≡◌, map, option_map};
ghost use Rattle.lifecycle.specs.Bindings.{bindings_of, row_view};

use mvn_base::Phase;

/// A binding: the plugin's artifact, the goal and the phase.
pub(crate) type Row = (&'static str, &'static str, Phase);

const RESOURCES: &str = "maven-resources-plugin";

const COMPILER: &str = "maven-compiler-plugin";

const SUREFIRE: &str = "maven-surefire-plugin";

const EAR: &str = "maven-ear-plugin";

const INSTALL: &str = "maven-install-plugin";

const DEPLOY: &str = "maven-deploy-plugin";

const POM_ROWS: [Row; 2] = [
    (INSTALL, "install", Phase::Install),
    (DEPLOY, "deploy", Phase::Deploy),
];

// The bindings of a packaging of compiled classes, by the plugin and the goal that pack them.
macro_rules! class_rows {
    ($plugin:expr, $goal:expr) => {
        [
            (RESOURCES, "resources", Phase::ProcessResources),
            (COMPILER, "compile", Phase::Compile),
            (RESOURCES, "testResources", Phase::ProcessTestResources),
            (COMPILER, "testCompile", Phase::TestCompile),
            (SUREFIRE, "test", Phase::Test),
            ($plugin, $goal, Phase::Package),
            (INSTALL, "install", Phase::Install),
            (DEPLOY, "deploy", Phase::Deploy),
        ]
    };
}

const JAR_ROWS: [Row; 8] = class_rows!("maven-jar-plugin", "jar");

const EJB_ROWS: [Row; 8] = class_rows!("maven-ejb-plugin", "ejb");

const RAR_ROWS: [Row; 8] = class_rows!("maven-rar-plugin", "rar");

const WAR_ROWS: [Row; 8] = class_rows!("maven-war-plugin", "war");

const EAR_ROWS: [Row; 5] = [
    (EAR, "generate-application-xml", Phase::GenerateResources),
    (RESOURCES, "resources", Phase::ProcessResources),
    (EAR, "ear", Phase::Package),
    (INSTALL, "install", Phase::Install),
    (DEPLOY, "deploy", Phase::Deploy),
];

/// The bindings of a packaging, in order; none exactly where the packaging is unknown. Constant cost, and no memory.
#[tactic(auto, unfolding(crate::specs::Bindings::bindings_of))]
pub(crate) fn rows_of(packaging: &str) -> Option<&'static [Row]>
    ensures { option_map (λ rows. map row_view rows.now) result ≡ bindings_of packaging.now }
{
    if packaging == "pom" {
        Some(POM_ROWS.as_slice())
    } else if packaging == "jar" {
        Some(JAR_ROWS.as_slice())
    } else if packaging == "ejb" {
        Some(EJB_ROWS.as_slice())
    } else if packaging == "rar" {
        Some(RAR_ROWS.as_slice())
    } else if packaging == "war" {
        Some(WAR_ROWS.as_slice())
    } else if packaging == "ear" {
        Some(EAR_ROWS.as_slice())
    } else {
        None
    }
}
