//! Laws of indexes: of their names, of the sets of versions in them, and of writing and reading them.

ghost use Rattle.std.specs.Prelude.{◌≡◌, ◌≢◌, ◌↔◌, ℕ, ◌≤◌, ◌||◌, true, List, ◌∷◌, length, Option, Some};
ghost use Rattle.std.specs.List.{list_all};
ghost use Rattle.std.specs.declared.cmp.Ordering.TheVariants.{Less};
ghost use Rattle.std.specs.Ordering.{eq_by_cmp, nat_cmp};
ghost use Rattle.std.specs.Cmp.Lexicographic.{slice_cmp};
ghost use Rattle.mvn_base.specs.declared.gav.Gav.{Gav};
ghost use Rattle.mvn_base.specs.Apart.{IsFileOf};
ghost use Rattle.mvn_base.specs.FileName.{index_file};
ghost use Rattle.mvn_base.specs.Gav.{lock_name};
ghost use Rattle.version_index.specs.Listed.{entered_of, listed_of};
ghost use Rattle.version_index.specs.Names.{IsLibrary, index_lock};
ghost use Rattle.version_index.specs.Sets.{IsAscending, has_version, put_version, version_set};
ghost use Rattle.version_index.specs.Texts.{IsIndexOf, index_text, is_listed, most_index, read_index};

/// A law of names: an index file and its lock are of one library alone; no artifact has the name of an index file; and the lock of
/// an artifact is below that of any index, so that one who holds the first may take the second. It does nothing when it runs.
/// Project rule.
pub fn one_library()
    ensures file { (group artifact other_group other : List ℕ) →
        IsLibrary group artifact → IsLibrary other_group other →
        index_file group artifact ≡ index_file other_group other →
        (group ≡ other_group) × (artifact ≡ other) }
    ensures lock { (group artifact other_group other : List ℕ) →
        IsLibrary group artifact → IsLibrary other_group other →
        index_lock group artifact ≡ index_lock other_group other →
        (group ≡ other_group) × (artifact ≡ other) }
    ensures apart { (gav : Gav) (name group artifact : List ℕ) →
        IsFileOf gav name → (name ≢ index_file group artifact) }
    ensures above { (gav : Gav) (group artifact : List ℕ) →
        slice_cmp nat_cmp (lock_name gav) (index_lock group artifact) ≡ Less }
{}

/// A law of sets of versions: they ascend, each once, and have what they are made of; one more is a union; and two with the same
/// versions are one, in whatever order and how often these came. It does nothing when it runs. Project rule.
pub fn one_set()
    ensures ascending { (versions : List (List ℕ)) → IsAscending (version_set versions) }
    ensures members { (version : List ℕ) (versions : List (List ℕ)) →
        has_version version (version_set versions) ≡ has_version version versions }
    ensures kept { (versions : List (List ℕ)) (more : List ℕ) →
        IsAscending versions → IsAscending (put_version versions more) }
    ensures union { (version more : List ℕ) (versions : List (List ℕ)) →
        has_version version (put_version versions more)
        ≡ (eq_by_cmp (slice_cmp nat_cmp) version more || has_version version versions) }
    ensures set { (versions : List (List ℕ)) (more : List ℕ) →
        IsAscending versions → put_version versions more ≡ version_set (more ∷ versions) }
    ensures same { (one other : List (List ℕ)) →
        ((version : List ℕ) → has_version version one ≡ has_version version other) →
        version_set one ≡ version_set other }
{}

/// A law of indexes: bytes are read as versions exactly where they are the text of these; so what is written of valid versions is
/// read as their set. It does nothing when it runs. Project rule.
pub fn read_as_written()
    ensures read { (bytes : List ℕ) (versions : List (List ℕ)) →
        (read_index bytes ≡ Some versions) ↔ IsIndexOf versions bytes }
    ensures written { (versions : List (List ℕ)) →
        list_all is_listed versions ≡ true → length (index_text versions) ≤ most_index →
        read_index (index_text versions) ≡ Some (version_set versions) }
    ensures fewer { (one other : List (List ℕ)) →
        ((version : List ℕ) → has_version version one ≡ true → has_version version other ≡ true) →
        length (index_text one) ≤ length (index_text other) }
{}

/// A law of entering a version: the new index is the text of those that are listed and of it, and is read as them; two that are
/// entered one after the other make the same index in either order. What is listed ascends, each once, and is listed again from
/// itself. It does nothing when it runs. Project rule.
pub fn entered_in_any_order()
    ensures listed { (found : Option (List ℕ)) (start : List (List ℕ)) →
        IsAscending (listed_of found start) }
    ensures again { (found : Option (List ℕ)) (start : List (List ℕ)) →
        listed_of found (listed_of found start) ≡ listed_of found start }
    ensures text { (found : Option (List ℕ)) (start : List (List ℕ)) (version : List ℕ) →
        entered_of found start version ≡ index_text (version ∷ listed_of found start) }
    ensures read { (found : Option (List ℕ)) (start : List (List ℕ)) (version : List ℕ) →
        list_all is_listed (version ∷ start) ≡ true →
        length (entered_of found start version) ≤ most_index →
        read_index (entered_of found start version)
        ≡ Some (put_version (listed_of found start) version) }
    ensures order { (found : Option (List ℕ)) (start : List (List ℕ)) (one other : List ℕ) →
        list_all is_listed (one ∷ other ∷ start) ≡ true →
        length (entered_of found start one) ≤ most_index →
        length (entered_of found start other) ≤ most_index →
        entered_of (Some (entered_of found start one)) start other
        ≡ entered_of (Some (entered_of found start other)) start one }
{}
