//! Laws of facts. Each function is its clauses, and does nothing.

ghost use Rattle.std.specs.Prelude.{◌≡◌, ℕ, IsTrue, List, [], ◌∷◌, Some, false};
ghost use Rattle.dns_message.specs.declared.question.Question.{Question};
ghost use Rattle.upstream_link.specs.declared.fact.Fact.{Fact};
ghost use Rattle.upstream_link.specs.declared.fact.Fact.TheVariants.{Answer};
ghost use Rattle.upstream_link.specs.Chain.{chain, is_alias};
ghost use Rattle.upstream_link.specs.Fact.{fact_from, is_failed};
ghost use Rattle.upstream_link.specs.Facts.{Extends, PlainFacts, fact_about, is_known, records_about};
ghost use Rattle.upstream_link.specs.Kept.{PlainAnswer};
ghost use Rattle.upstream_link.specs.Life.{with_age};
ghost use Rattle.upstream_link.specs.Question.{question_of};
ghost use Rattle.upstream_link.specs.Servers.{ancestors, servers};
ghost use Rattle.std.specs.List.{list_all, list_any};
ghost use Rattle.dns_name.specs.Labels.{Name};

/// What is known stays known, and stays the same, whatever facts come behind. So do the servers of a name once the NS
/// questions of the name and of those above it are answered.
pub fn what_is_known_stays_known()
    ensures known { (facts more : PlainFacts) (question : Question) (fact : Fact) →
        Extends facts more →
        fact_about facts question ≡ Some fact → fact_about more question ≡ Some fact }
    ensures records { (facts more : PlainFacts) (name : Name) (qtype : ℕ) →
        Extends facts more →
        IsTrue (is_known facts (question_of name qtype)) →
        records_about more name qtype ≡ records_about facts name qtype }
    ensures servers { (facts more : PlainFacts) (name : Name) → Extends facts more →
        IsTrue (list_all (λ owner. is_known facts (question_of owner 2)) (ancestors name)) →
        servers more name ≡ servers facts name }
{}

/// Bytes never say that nothing came, at whatever age. So no fact that is vouched for does.
pub fn bytes_say_that_something_came()
    ensures { (octets : List ℕ) (id : ℕ) (question : Question) (seconds : ℕ) →
        is_failed (with_age seconds (fact_from octets id question)) ≡ false }
{}

/// An answer without a CNAME record shows no chain but the name that was asked for.
pub fn an_answer_without_aliases_shows_no_chain()
    ensures { (question : Question) (answer : PlainAnswer) →
        list_any is_alias answer.answers ≡ false →
        chain question (Answer answer) ≡ Some (question.name ∷ []) }
{}
