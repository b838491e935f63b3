//! Laws of a program with several modes, such as start, work and stop: its live objects are always within
//! the needs of at least one of them. `p` holds the pages and the classes.
ghost use Rattle.std.specs.Prelude.{◌≡◌, ◌<◌, ◌≤◌, Contains, List, None, slice_index, sum_by};
ghost use Rattle.std.specs.List.{range_with_len};
ghost use Rattle.std.specs.FinMap.{empty};
ghost use Rattle.cf_base.specs.Settings.{Profile};
ghost use Rattle.page_model.specs.Paging.{EveryBoundIsOne, IsPaging, Paging, classes};
ghost use Rattle.quota_model.specs.Admission.{first_large};
ghost use Rattle.quota_model.specs.declared.results.Need.{Need};
ghost use Rattle.sizing.specs.Certificates.{AreForResizes, IsCertificate, KeepResized};
ghost use Rattle.sizing.specs.Demands.{KeepsToOne, pages_of_modes, spread_of_modes};
ghost use Rattle.sizing.specs.Runs.{CanBeRefused, IsServed, ServesMallocs, ServesMallocsAcross, ServesResizes, ServesResizesAcross};
ghost use Rattle.sizing.specs.declared.certificate.PointPages.{PointPages};

/// What a certificate guarantees a program with these modes, whatever the bounds. If the program never resizes an
/// object to another length of its class, no malloc is refused for space (`mallocs`), and no resize if
/// each point leaves a page over (`spare`). For any program with these modes, no malloc is refused if the
/// certificate allows for resizes within a class (`within`), and no malloc or resize if it is one for resizes too
/// (`resizes`).
pub fn certified_pages_serve()
    ensures mallocs { (p : Paging) (modes : List (List Need)) (points : List PointPages) → IsPaging p
        → IsCertificate p modes points → ServesMallocsAcross p (KeepsToOne modes) }
    ensures within { (p : Paging) (modes : List (List Need)) (points : List PointPages) → IsPaging p
        → IsCertificate p modes points → KeepResized p modes points → ServesMallocs p (KeepsToOne modes) }
    ensures resizes { (p : Paging) (modes : List (List Need)) (points : List PointPages) → IsPaging p
        → IsCertificate p modes points → AreForResizes p modes points → IsServed p (KeepsToOne modes) }
    ensures spare { (p : Paging) (modes : List (List Need)) (points : List PointPages) → IsPaging p
        → IsCertificate p modes points
        → ((x : PointPages) → Contains points x → sum_by (slice_index x.pages) (range_with_len 0 (classes p)) < p.pages)
        → ServesResizesAcross p (KeepsToOne modes) }
{}

/// Whatever the bounds, no malloc of a program with these modes is refused for space if there are the
/// most pages that the classes can have in one mode (`spread_of_modes`; clause `mallocs`). With one page
/// more no resize is either (`resizes`).
pub fn pages_for_modes_serve()
    ensures mallocs { (p : Paging) (modes : List (List Need)) → IsPaging p
        → spread_of_modes p modes ≤ p.pages → ServesMallocs p (KeepsToOne modes) }
    ensures resizes { (p : Paging) (modes : List (List Need)) → IsPaging p
        → spread_of_modes p modes < p.pages → ServesResizes p (KeepsToOne modes) }
{}

/// If every bound is 1, the pages of the mode with the greatest need are enough: no malloc is refused
/// for space (`mallocs`). With one page more no resize is either (`resizes`).
pub fn pages_for_modes_serve_at_bound_one()
    ensures mallocs { (p : Paging) (modes : List (List Need)) → IsPaging p → EveryBoundIsOne p
        → pages_of_modes p modes ≤ p.pages → ServesMallocs p (KeepsToOne modes) }
    ensures resizes { (p : Paging) (modes : List (List Need)) → IsPaging p → EveryBoundIsOne p
        → pages_of_modes p modes < p.pages → ServesResizes p (KeepsToOne modes) }
{}

/// Whatever the bounds, with fewer pages than the mode with the greatest need needs, some run within
/// the modes has a malloc that is refused for space. This holds if the length of each entry, even of count 0,
/// fits a page with a header; a page has the words of the settings `s`.
pub fn fewer_pages_for_modes_refuse()
    ensures { (p : Paging) (s : Profile) (modes : List (List Need)) → IsPaging p
        → s.page_words ≡ p.page_words
        → ((needs : List Need) → Contains modes needs → first_large s needs ≡ None)
        → p.pages < pages_of_modes p modes → CanBeRefused p (KeepsToOne modes) empty }
{}
