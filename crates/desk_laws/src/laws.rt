// Laws of the desk.
ghost use Rattle.std.specs.Prelude.{◌≡◌, ◌+◌, ◌∷◌, ℕ, [], false, IfOk, None, Some};
ghost use Rattle.lsp_frame.specs.Pending.{id_of, is_pending};
ghost use Rattle.lsp_frame.specs.declared.message.Request.{Request};
ghost use Rattle.lsp_frame.specs.declared.message.RequestId.{RequestId};
ghost use Rattle.session_port.specs.Jobs.{jobs_after, fitting_job};
ghost use Rattle.session_port.specs.Kinds.{ticket_of_job};
ghost use Rattle.session_port.specs.declared.event.TaskMsg.{TaskMsg};
ghost use Rattle.session_port.specs.declared.job.Job.{Job};
ghost use Rattle.session_port.specs.TurnState.{TurnState};
ghost use Rattle.desk.specs.Desk.{Desk, new_desk};
ghost use Rattle.desk.specs.Folds.{AreHeld};
ghost use Rattle.desk.specs.Meaning.{Meaning};
ghost use Rattle.desk.specs.Reactions.{cancel_row, message_row, request_row};
ghost use Rattle.desk.specs.Steps.{cancelled, requested, result_taken};
ghost use Rattle.desk.specs.Scene.{Scene};
ghost use Rattle.desk.specs.Slots.{unreported};
ghost use Rattle.desk_laws.specs.Invariant.{IsHeldByOne, KeepsSound, Sound};
ghost use Rattle.desk_laws.specs.Reacting.{Reacts};
ghost use Rattle.desk_laws.specs.Settled.{Settled};

/// What the desk does with a request, with a cancelled one and with a message of a job is its row of the reply table.
pub fn steps_are_rows()
    ensures requests { (meaning : Meaning) (scene : Scene) (r : Request) (w : TurnState Desk)
        → IfOk (requested meaning scene r w) (λ v. Settled (Some r) w v (request_row meaning scene w.state w.state.turns r) w.state.jobs) }
    ensures cancels { (id : RequestId) (w : TurnState Desk) → Settled None w (cancelled id w) (cancel_row id w.state) w.state.jobs }
    ensures messages { (meaning : Meaning) (scene : Scene) (message : TaskMsg) (w : TurnState Desk)
        → IfOk (result_taken meaning scene message w) (λ v. Settled None w v (message_row meaning scene w.state message) (jobs_after message w.state.jobs)) }
{}

/// A new request, and the message of a job whose request waits, get one response, or one job is handed over for them.
pub fn rows_answer_or_hand_over()
    ensures requests { (meaning : Meaning) (scene : Scene) (desk : Desk) (ticket : ℕ) (r : Request) → is_pending r.id desk.pending ≡ false
        → Reacts scene desk.last_job ticket r.id (request_row meaning scene desk ticket r) }
    ensures messages { (meaning : Meaning) (scene : Scene) (desk : Desk) (message : TaskMsg) (job : Job) (ticket : ℕ) (id : RequestId)
        → fitting_job message desk.jobs ≡ Some job → ticket_of_job job.kind ≡ Some ticket → id_of ticket desk.pending ≡ Some id
        → Reacts scene desk.last_job ticket id (message_row meaning scene desk message) }
{}

/// Each request that waits is held by exactly one job out for each of its parts that is not reported: so it
/// is at the beginning, and each row keeps it so. Each of its responses answers one request that waits.
pub fn rows_keep_requests_held()
    ensures beginning { (revision : ℕ) → Sound new_desk revision }
    ensures requests { (meaning : Meaning) (scene : Scene) (desk : Desk) (r : Request) → Sound desk scene.snapshot.revision
        → KeepsSound (desk.turns + 1) (Some r) (request_row meaning scene desk (desk.turns + 1) r) desk.jobs desk scene.snapshot.revision }
    ensures cancels { (desk : Desk) (revision : ℕ) (id : RequestId) → Sound desk revision
        → KeepsSound (desk.turns + 1) None (cancel_row id desk) desk.jobs desk revision }
    ensures messages { (meaning : Meaning) (scene : Scene) (desk : Desk) (message : TaskMsg) → Sound desk scene.snapshot.revision
        → KeepsSound (desk.turns + 1) None (message_row meaning scene desk message) (jobs_after message desk.jobs) desk scene.snapshot.revision }
{}

/// A request that waits for the report of one part is held by one job out, whatever the part.
pub fn one_part_is_held_by_one_job()
    ensures { (desk : Desk) (ticket part : ℕ) (id : RequestId) → AreHeld desk
        → id_of ticket desk.pending ≡ Some id → unreported ticket desk ≡ part ∷ []
        → IsHeldByOne ticket desk.jobs }
{}
