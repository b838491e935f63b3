//! Laws on sixteen tasks on the pages of one region: the test of a quota has one result, and each quota can be used.
ghost use Rattle.std.specs.Prelude.{ℕ, ◌≡◌, ◌<◌, List, IsTrue, slice_index};
ghost use Rattle.quota_model.specs.Admission.{IsAdmission, Share};
ghost use Rattle.quota_model.specs.Refusals.{task_paging};
ghost use Rattle.quota_model.specs.declared.results.Admission.{Admission};
ghost use Rattle.quota_model.specs.declared.results.Need.{Need};
ghost use Rattle.cf_base.specs.Limits.{is_page_size};
ghost use Rattle.cf_base.specs.Settings.{Profile};
ghost use Rattle.page_model.specs.Arrangement.{count_on, used_pages};
ghost use Rattle.page_model.specs.Held.{Held};
ghost use Rattle.quota_model.specs.Parts.{objects_of_task};
ghost use Rattle.quota_model.specs.Shared.{AreQuotas, IsShared};

/// Settings, quota and declared objects determine the result of the test whether the quota is enough
/// (`Admission`): two results that are both right are equal.
pub fn there_is_one_admission()
    ensures { (t : Share) (needs : List Need) (a b : Admission) → IsAdmission t needs a
        → IsAdmission t needs b → a ≡ b }
{}

/// While a task uses fewer pages than its quota, some page of the region is free, whatever the other
/// tasks have done by the rules (`IsShared`, `AreQuotas`).
pub fn a_page_is_there_for_each_quota()
    ensures { (s : Profile) (quotas : List ℕ) (m : Held) (task : ℕ)
        → IsShared s m → AreQuotas s quotas m → IsTrue (is_page_size s.page_words) → task < 16
        → used_pages (task_paging s) (objects_of_task m task) < slice_index quotas task
        → (page : ℕ) × (page < s.pages) × (count_on (task_paging s) m page ≡ 0) }
{}
