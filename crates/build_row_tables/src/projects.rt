// The projects of rows, each by its name.
use crate::library::Part;

/// The path of a POM, and its text.
pub(crate) type Pom = (&'static str, &'static str);

/// The POMs of a project, and what the remote repository has of the library x:y:1.
#[derive(Clone, Copy)]
pub(crate) struct Built {
    pub(crate) poms: &'static [Pom],
    pub(crate) parts: &'static [Part],
}

const POM: &str =
    "<project><modelVersion>4.0.0</modelVersion><groupId>demo</groupId><artifactId>app</artifactId><version>1.0</version></project>";

const ONE: Built = Built {
    poms: &[("pom.xml", POM)],
    parts: &[],
};

// A POM whose parent has to be looked up by its coordinates.
const CHILD: &str =
    "<project><modelVersion>4.0.0</modelVersion><parent><groupId>g</groupId><artifactId>p</artifactId><version>1</version></parent><artifactId>app</artifactId></project>";

const ALONE: Built = Built {
    poms: &[("pom.xml", CHILD)],
    parts: &[],
};

const ROOT: &str =
    "<project><modelVersion>4.0.0</modelVersion><groupId>demo</groupId><artifactId>root</artifactId><version>1</version><packaging>pom</packaging><modules><module>a</module><module>b</module></modules></project>";

const A: &str =
    "<project><modelVersion>4.0.0</modelVersion><parent><groupId>demo</groupId><artifactId>root</artifactId><version>1</version></parent><artifactId>a</artifactId></project>";

// It needs the jar of `a`.
const B: &str =
    "<project><modelVersion>4.0.0</modelVersion><parent><groupId>demo</groupId><artifactId>root</artifactId><version>1</version></parent><artifactId>b</artifactId><dependencies><dependency><groupId>demo</groupId><artifactId>a</artifactId><version>1</version></dependency></dependencies></project>";

const THREE: Built = Built {
    poms: &[("pom.xml", ROOT), ("a/pom.xml", A), ("b/pom.xml", B)],
    parts: &[],
};

// A POM that needs the library x:y:1.
const NEEDS: &str =
    "<project><modelVersion>4.0.0</modelVersion><groupId>demo</groupId><artifactId>app</artifactId><version>1.0</version><dependencies><dependency><groupId>x</groupId><artifactId>y</artifactId><version>1</version></dependency></dependencies></project>";

const LIBRARY_POM: Part = (
    "pom",
    "<project><modelVersion>4.0.0</modelVersion><groupId>x</groupId><artifactId>y</artifactId><version>1</version></project>",
);

const FETCHING: Built = Built {
    poms: &[("pom.xml", NEEDS)],
    parts: &[LIBRARY_POM, ("jar", "a library")],
};

const MISSING: Built = Built {
    poms: &[("pom.xml", NEEDS)],
    parts: &[LIBRARY_POM],
};

const NONE: Built = Built {
    poms: &[],
    parts: &[],
};

/// The project of this name; one without POMs, if no project has it.
pub(crate) fn project(name: &str) -> Built {
    match name {
        "one" => ONE,
        "child" => ALONE,
        "three" => THREE,
        "fetching" => FETCHING,
        "missing" => MISSING,
        _ => NONE,
    }
}
