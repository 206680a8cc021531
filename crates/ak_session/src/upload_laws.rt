// What an upload of a device's collection leaves.
ghost use Rattle.std.specs.Prelude.{◌≡◌, ℕ, ℤ, List};
ghost use Rattle.ak_base.specs.declared.names.Name.{Name};
ghost use Rattle.ak_keep.specs.Collections.{Collection};
ghost use Rattle.ak_merge.specs.Commits.{settings_of};
ghost use Rattle.ak_merge.specs.Holdings.{AreNamed, has_tag, row_under};
ghost use Rattle.ak_messages.specs.declared.requests.Ask.TheVariants as asks;
ghost use Rattle.ak_messages.specs.declared.requests.Request.{Request};
ghost use Rattle.ak_session.specs.Contents.{closed};
ghost use Rattle.ak_session.specs.Uploads.{whole_to_send, without_graves};

/// An upload of a device's collection leaves its rows but the graves, its tags and its settings.
pub fn uploads_leave_the_content()
    ensures rows { (c committed : Collection) (accepted : List Request) (upload : Request) (now : ℤ) (name : Name)
        → AreNamed (row_under c) → upload.ask ≡ asks.Upload (whole_to_send c)
        → row_under (closed committed accepted upload now) name ≡ without_graves (row_under c) name }
    ensures tags { (c committed : Collection) (accepted : List Request) (upload : Request) (now : ℤ) (name : List ℕ)
        → upload.ask ≡ asks.Upload (whole_to_send c)
        → has_tag (closed committed accepted upload now).head.tags name ≡ has_tag c.head.tags name }
    ensures settings { (c committed : Collection) (accepted : List Request) (upload : Request) (now : ℤ)
        → upload.ask ≡ asks.Upload (whole_to_send c)
        → settings_of (closed committed accepted upload now).head ≡ settings_of c.head }
{}
